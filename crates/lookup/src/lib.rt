// Lookup: the first entry that matches a header, in a file and in a lent table.
#![tactic(auto)]

pub mod file;
pub mod records;
pub mod table;
