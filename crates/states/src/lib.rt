// What is handed to each block, in one flat table that is lent; and what the levels start with.
#![tactic(auto)]

pub mod handed;
pub mod starts;
