// The record of a walk: its flat table, and what each event makes of it.
#![tactic(auto)]

pub mod flat;
pub mod steps;
