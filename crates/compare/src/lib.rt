// Comparison of two files: whether the first refines the second.
#![tactic(auto)]

pub mod excess;
pub mod files;
