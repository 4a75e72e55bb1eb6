// What the gateway's C daemon calls, for callers in this repository too; include/dunnarek/policy.h says it for C.
#![tactic(auto)]

pub mod exports;
