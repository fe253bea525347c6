// A sheet as one flat table of numbers: the cells of its rows, where each row starts, and an index of the rows.
// How a sheet's bytes come into the table is left to `sheet`.
#![tactic(auto)]

pub mod counts;
pub mod edits;
pub mod index;
pub mod rows;
pub mod view;

// The sections of the table; where each row starts stands from its end downward.
// Stays: document 01 asks for flat tables of numbers; their layout is named once.
pub const INDEX: usize = 0;

pub const CELLS: usize = 1920;

// How long a table is: for a sheet of at most 1,024 bytes, of at most 8,192, of any.
pub const SHORT: usize = 2604;

pub const MIDDLE: usize = 7384;

pub const LONG: usize = 45612;
