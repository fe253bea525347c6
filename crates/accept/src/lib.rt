// Refusals 4 to 6 and 9 to 12: of operands and edits a function that is true where the sheet in a table keeps the rules, of blocks the first refusal with the
// row of the block.
// They go by the index that `table::index::build` fills, once 2 and 3 hold. The other refusals are left to `sheet`, `names` and the call.
#![tactic(auto)]

pub mod blocks;
pub mod constraints;
pub mod edits;
