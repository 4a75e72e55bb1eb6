// The bench: the lists of up to 8 parties, filed, withdrawn and merged.
#![tactic(auto)]

pub mod calls;
pub mod named;
pub mod round_trips;
pub mod sequence;
pub mod slots;
