// What every typed set and table of `entity` stands on: sets of small numbers by value, and total reads and stores.
#![tactic(auto)]

pub mod sets;
pub mod tables;
