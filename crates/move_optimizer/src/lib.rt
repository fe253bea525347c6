// The optimizer of moves: document 01's forward rules over the table of an accepted sheet. What the rules are is said in `rules`.
#![tactic(auto)]

pub mod levels;
