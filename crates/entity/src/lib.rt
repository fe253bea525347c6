// The nouns of document 01: distinct kinds of number, the forms of a row's fields, and sets of them.
// What a sheet's rows say of them, and every rule, is left to the crates above.
#![tactic(auto)]

pub mod cells;
pub mod forms;
pub mod numbers;
pub mod sets;
