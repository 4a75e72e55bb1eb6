// Calls for `make measure`, which times what the gateway's calls do not reach: the search, the lookups of a part and in a table, and whole
// mergings. Each promises what it answers, and what is in the lent buffer after it, by one equation with the meaning of the call that it
// makes. No program relies on them. What they call is the product's own code.
#![tactic(auto)]

pub mod mergings;
pub mod part;
pub mod searches;
pub mod table;
