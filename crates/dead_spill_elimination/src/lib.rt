// The sweep: which slots are wanted at the ends of blocks, to the smallest solution, and then the edits struck whose slot is not wanted.
// The edits stand in lent cells, four to a row, which `table` reads; the core marks the rows that are dead, and `marks` strikes them.
#![tactic(auto)]

mod ends;
pub mod sweep;
mod touched;
mod wanted;
