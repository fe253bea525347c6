// Rows: a sheet's bytes cut at commas and at CR LF into the table's cells and starts. Which rows may stand there is left to grammar.
ghost use Rattle.std.specs.Prelude.{◌≡◌, List, ℕ, ◌≤◌, length, drop};
ghost use Rattle.std.proofs.Math.Option.{some, map};
ghost use Rattle.entity.specs.Limits.{byte_limit};
ghost use Rattle.rules.specs.Cells.{reuse_mark, word_of};
ghost use Rattle.rules.specs.Rows.{cells_of};
ghost use Rattle.sheet.specs.Answers.{field_at, option_of, comma, crlf, ended, plain_head, number_from, field_by};
ghost use Rattle.table.specs.Layout.{table_length};
ghost use Rattle.table.specs.Table.{Holds};

use crate::fields::{digits, is_digit, lookup, mark, packed};
use bits::tables::read;
use entity::cells::Number;
use table::CELLS;

// A field's cell and where the field ends: at a comma, or at CR LF.
#[derive(Clone, Copy)]
pub enum Piece {
    More(u32, usize),
    Last(u32, usize),
}

// What ends a field of cell c at e, where u stands.
#[tactic(auto, unfolding(crate::specs::Answers::ended, crate::specs::Answers::comma, crate::specs::Answers::crlf))]
fn ended(u: &[u8], c: u32, e: usize) -> Option<Piece>
    ensures { result ≡ ended (some c) (comma u.now) (crlf u.now) e }
{
    match read(u, 0, 0) {
        b',' => Some(Piece::More(c, e)),
        b'\r' if read(u, 1, 0) == b'\n' => Some(Piece::Last(c, e)),
        _ => None,
    }
}

// Are n digits at the head of t a number: at least one, and no leading zero?
#[tactic(auto, unfolding(crate::specs::Answers::plain_head))]
fn plain(t: &[u8], n: usize) -> bool
    ensures { result ≡ plain_head t.now n }
{
    (1 <= n) & ((n == 1) | (read(t, 0, 0) != b'0'))
}

// The number at at, after a mark of cell base.
fn number(s: &[u8], at: usize, base: u32) -> Option<Piece>
    requires at_in_bounds { at ≤ length s.now }
    requires base_le_reuse_mark { base ≤ reuse_mark }
    ensures { result ≡ field_by (number_from base) (drop at s.now) at }
{
    let t = &s[at..];
    let d = digits(t);
    if !plain(t, d.1) {
        return None;
    }
    let e = at + d.1;
    ended(&s[e..], base + d.0, e)
}

fn word(s: &[u8], at: usize) -> Option<Piece>
    requires { at ≤ length s.now }
    ensures { result ≡ field_by word_of (drop at s.now) at }
{
    let p = packed(&s[at..]);
    let c = lookup(p.0)?;
    let e = at + p.1;
    ended(&s[e..], c, e)
}

// The field that starts at at, and what ends it.
fn field(s: &[u8], at: usize) -> Option<Piece>
    requires { at ≤ length s.now }
    ensures { result ≡ field_at (drop at s.now) at }
{
    if s.len() <= at {
        return None;
    }
    let mut from = at;
    let mut base: u32 = 0;
    if let Some(k) = mark(s[at]) {
        from = at + 1;
        base = k * Number::LIMIT;
    }
    if is_digit(read(s, from, 0)) {
        return number(s, from, base);
    }
    word(s, at)
}

// The whole sheet: its cells from CELLS on, one after the other, and from the table's end downward where each row starts, with the end of the last.
pub fn rows(s: &[u8], t: &mut [u32]) -> Option<u32>
    requires room { table_length (length s.now) ≤ length t.old }
    requires short { length s.now ≤ byte_limit }
    ensures value { result ≡ option_of (map length (cells_of s.now)) }
    ensures holds { (rs : List (List ℕ)) → cells_of s.now ≡ some rs → Holds rs t.new }
{
    let last = t.len() - 1;
    t[last] = CELLS as u32;
    let mut at: usize = 0;
    let mut n: usize = CELLS;
    let mut k: usize = 0;
    let mut open = false;
    while at < s.len() {
        match field(s, at)? {
            Piece::More(c, e) => {
                t[n] = c;
                n += 1;
                at = e + 1;
                open = true;
            }
            Piece::Last(c, e) => {
                t[n] = c;
                n += 1;
                k += 1;
                t[last - k] = n as u32;
                at = e + 2;
                open = false;
            }
        }
    }
    if open {
        return None;
    }
    Some(k as u32)
}
