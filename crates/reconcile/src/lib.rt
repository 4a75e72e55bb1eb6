// Merging: crossing, dropping, conflict, striking; installing.
#![tactic(auto)]

pub mod cross;
pub mod ending;
pub mod install;
pub mod stage;
pub mod strike;
pub mod verdict;
