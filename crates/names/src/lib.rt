// Refusals 2 and 3 of document 01, each a function that is true where the sheet in a table keeps its rules: limits and names.
// They go by the rows alone, before there is an index. The other refusals are left to `sheet`, `accept` and the call.
#![tactic(auto)]

pub mod limits;
pub mod lists;
pub mod names;
