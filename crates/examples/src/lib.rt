// The worked examples of 01 that are theorems; they stand in specs/Table.antt.
#![tactic(auto)]
