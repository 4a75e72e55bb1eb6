// The file: its numbers, records and checks, reading it and writing it.
#![tactic(auto)]

pub mod check;
pub mod format;
pub mod header;
pub mod list;
pub mod number;
pub mod put;
pub mod ranges;
pub mod read;
pub mod record;
pub mod rows;
pub mod write;
