// The rows of a table as a sheet: how a row follows the one before it. A row by itself is left to shapes.
ghost use Rattle.std.specs.Prelude.{◌≡◌};
ghost use Rattle.rules.specs.Rows.{sheet_ok};
ghost use Rattle.sheet.specs.Grammar.{begins_kind, goes_on_kind, follows};
ghost use Rattle.table.specs.Table.{rows_in};

use crate::shapes::row_ok;
use bits::tables::read;
use entity::cells::Word;
use table::rows::row;

// A first field n where its kind begins.
#[tactic(auto, unfolding(crate::specs::Grammar::begins_kind, rules::specs::Rows::begins, rules::specs::Rows::reading))]
fn begins(kind: u32, n: u32) -> bool
    ensures { result ≡ begins_kind kind n }
{
    match kind {
        Word::REG..=Word::BLOCK => n == 0,
        Word::SLOTS | Word::SUCC..=Word::EDIT => true,
        _ => false,
    }
}

// A first field n after a row of its kind whose first field is x.
#[tactic(auto, unfolding(crate::specs::Grammar::goes_on_kind, rules::specs::Rows::goes_on, rules::specs::Rows::reading))]
fn goes_on(kind: u32, x: u32, n: u32) -> bool
    ensures { result ≡ goes_on_kind kind x n }
{
    match kind {
        Word::REG..=Word::BLOCK => n as u64 == x as u64 + 1,
        Word::SUCC | Word::PRED | Word::CLOB => x < n,
        Word::PARAM | Word::OP => x <= n,
        Word::EDIT => true,
        _ => false,
    }
}

// A row of kind k with first field n after a row of kind p with first field x.
#[tactic(auto, using(crate::proofs::Order::follows_is))]
fn pair_ok(p: u32, x: u32, k: u32, n: u32) -> bool
    ensures { result ≡ follows p x k n }
{
    (p < k) & begins(k, n) | (p == k) & goes_on(k, x, n)
}

pub fn sheet_ok(t: &[u32], n: u32) -> bool
    ensures { result ≡ sheet_ok (rows_in t.now n) }
{
    if n == 0 {
        return false;
    }
    if read(row(t, 0), 0, 0) != Word::SLOTS {
        return false;
    }
    let mut p: u32 = 0;
    let mut x: u32 = 0;
    for i in 0..n {
        let r = row(t, i);
        if !row_ok(r) {
            return false;
        }
        let k = read(r, 0, 0);
        let f = read(r, 1, 0);
        if !pair_ok(p, x, k, f) {
            return false;
        }
        p = k;
        x = f;
    }
    true
}
