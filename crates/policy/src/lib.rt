// Headers, rows, entries, action sets, rankings and refusals: the words that every other crate speaks in.
#![tactic(auto)]

pub mod actions;
pub mod direction;
pub mod entry;
pub mod header;
pub mod pair;
pub mod ports;
pub mod ranking;
pub mod refusal;
pub mod sides;
