// The rows of the table: whole ones, and the rows of one kind. Past the last row and past a row's end there is nothing.
ghost use Rattle.std.specs.Prelude.{◌≡◌, get_or, take, drop, ◌-◌};
ghost use Rattle.table.specs.Rows.{start_in, row_in, first_in, count_in, kind_row};

use crate::INDEX;
use bits::tables::read;

// The thirteen kinds of row, in their order.
// Stays: `first`, `count` and `row_of` are public and promise for every number; an enum would be a narrower type.
#[derive(Clone, Copy)]
pub struct Kind(pub u32);

impl Kind {
    pub const SLOTS: Kind = Kind(0);

    pub const REG: Kind = Kind(1);

    pub const CLASS: Kind = Kind(2);

    pub const GROUP: Kind = Kind(3);

    pub const VALUE: Kind = Kind(4);

    pub const VGROUP: Kind = Kind(5);

    pub const BLOCK: Kind = Kind(6);

    pub const SUCC: Kind = Kind(7);

    pub const PRED: Kind = Kind(8);

    pub const PARAM: Kind = Kind(9);

    pub const OP: Kind = Kind(10);

    pub const CLOB: Kind = Kind(11);

    pub const EDIT: Kind = Kind(12);
}

// The part of a table from `from` to `to`, or as much of it as there is.
pub fn part(t: &[u32], from: usize, to: usize) -> &[u32]
    ensures { result.now ≡ take (to - from) (drop from t.now) }
{
    let end = to.min(t.len());
    &t[from.min(end)..end]
}

// Where row i starts.
pub fn start(t: &[u32], i: usize) -> u32
    ensures { result ≡ start_in t.now i }
{
    if i < t.len() {
        return t[t.len() - 1 - i];
    }
    read(t, 0, 0)
}

// Row i of the table.
pub fn row(t: &[u32], i: u32) -> &[u32]
    ensures { result.now ≡ row_in t.now i }
{
    let at = i as usize;
    let from = start(t, at) as usize;
    let to = start(t, at + 1) as usize;
    part(t, from, to)
}

// How many rows there are before those of a kind.
pub fn first(t: &[u32], k: Kind) -> u32
    ensures { result ≡ first_in t.now k.0 }
{
    read(t, INDEX + k.0 as usize, 0)
}

// How many rows there are of a kind.
pub fn count(t: &[u32], k: Kind) -> u32
    ensures { result ≡ count_in t.now k.0 }
{
    let at = INDEX + k.0 as usize;
    let from = read(t, at, 0);
    let to = read(t, at + 1, 0);
    to.saturating_sub(from)
}

// Row n of a kind.
pub fn row_of(t: &[u32], k: Kind, n: u32) -> &[u32]
    ensures { result.now ≡ kind_row t.now k.0 n }
{
    let at = INDEX + k.0 as usize;
    let from = read(t, at, 0);
    let to = read(t, at + 1, 0);
    if n < to.saturating_sub(from) {
        return row(t, from + n);
    }
    &t[0..0]
}

// What follows the first k cells of a row.
pub fn rest(r: &[u32], k: usize) -> &[u32]
    ensures { result.now ≡ drop k r.now }
{
    &r[k.min(r.len())..]
}
