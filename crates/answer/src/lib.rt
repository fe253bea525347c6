// The answer's rows as bytes: folds, edits, counts. What does not fit the buffer is not written, and the length is told all the same,
// so that rendering into an empty part measures.
#![tactic(auto)]

pub mod rows;
mod text;
