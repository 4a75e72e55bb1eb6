// The search of a region: the least header of a box that no row of two lists matches, and what is answered by it.
#![tactic(auto)]

pub mod corner;
pub mod covering;
pub mod cut;
pub mod differing;
pub mod gap;
pub mod headers;
pub mod least;
pub mod missed;
pub mod pick;
pub mod rank;
pub mod row;
pub mod search;
pub mod size;
pub mod treated;
