// A row by itself: what a field may be, and which fields may stand after a kind's word. How rows follow each other is left to grammar.
ghost use Rattle.std.specs.Prelude.{◌≡◌, ◌&&◌, [], ◌∷◌, ◌≤◌, leb, length, get_or};
ghost use Rattle.laws.specs.Lists.{all};
ghost use Rattle.rules.specs.Rows.{field_ok, number, flag, dash, number_or_dash, place, constraint};
ghost use Rattle.rules.specs.Rows.{fits, end, ◌▸◌, op_shape, edit_shape, row_ok};
ghost use Rattle.sheet.specs.Grammar.{plain_op, fixed_op, move_edit, remat_edit, pair_edit, none_edit, fits_kind};

use entity::cells::{Mark, Number, Word};

#[tactic(auto, unfolding(rules::specs::Rows::field_ok, rules::specs::Rows::reading))]
fn number(c: u32) -> bool
    ensures { result ≡ field_ok number c }
{
    c < Number::LIMIT
}

#[tactic(auto, unfolding(rules::specs::Rows::field_ok, rules::specs::Rows::reading))]
fn flag(c: u32) -> bool
    ensures { result ≡ field_ok flag c }
{
    c < 2
}

#[tactic(auto, unfolding(rules::specs::Rows::field_ok, rules::specs::Rows::reading))]
fn dash(c: u32) -> bool
    ensures { result ≡ field_ok dash c }
{
    c == Word::DASH
}

#[tactic(auto, unfolding(rules::specs::Rows::field_ok, rules::specs::Rows::reading))]
fn number_or_dash(c: u32) -> bool
    ensures { result ≡ field_ok number_or_dash c }
{
    (c < Number::LIMIT) | (c == Word::DASH)
}

#[tactic(auto, unfolding(rules::specs::Rows::field_ok, rules::specs::Rows::reading))]
fn place(c: u32) -> bool
    ensures { result ≡ field_ok place c }
{
    (Mark::REG <= c) & (c < Mark::CLASS)
}

#[tactic(auto, unfolding(rules::specs::Rows::field_ok, rules::specs::Rows::reading))]
fn constraint(c: u32) -> bool
    ensures { result ≡ field_ok constraint c }
{
    (Mark::CLASS <= c) & (c < Mark::END)
}

fn numbers(cs: &[u32]) -> bool
    ensures { result ≡ all (field_ok number) cs.now }
{
    cs.iter().all(|c| number(*c))
}

// At least n numbers: `group`, `vgroup`, `succ`, `pred` and `clob`.
fn listed(cs: &[u32], n: usize) -> bool
    requires { 1 ≤ n }
    ensures { result ≡ (leb n (length cs.now) && all (field_ok number) cs.now) }
{
    (n <= cs.len()) & numbers(cs)
}

// At least n numbers, the second a flag: `reg` and `class`.
fn flagged(cs: &[u32], n: usize) -> bool
    requires { 2 ≤ n }
    ensures { result ≡ (leb n (length cs.now) && all (field_ok number) cs.now && field_ok flag (get_or cs.now 1 0)) }
{
    listed(cs, n) && flag(cs[1])
}

#[tactic(auto, using(crate::proofs::Fitting::fits_1, crate::proofs::Fitting::not_1))]
fn slots(cs: &[u32]) -> bool
    ensures { result ≡ fits (number ▸ end) cs.now }
{
    match cs {
        [n] => number(*n),
        _ => false,
    }
}

#[tactic(auto, using(crate::proofs::Fitting::fits_2, crate::proofs::Fitting::not_2))]
fn value(cs: &[u32]) -> bool
    ensures { result ≡ fits (number ▸ number_or_dash ▸ end) cs.now }
{
    match cs {
        [v, home] => number(*v) & number_or_dash(*home),
        _ => false,
    }
}

#[tactic(auto, using(crate::proofs::Fitting::fits_4, crate::proofs::Fitting::not_4))]
fn block(cs: &[u32]) -> bool
    ensures { result ≡ fits (number ▸ number ▸ number_or_dash ▸ flag ▸ end) cs.now }
{
    match cs {
        [b, instructions, idom, entry] => {
            number(*b) & number(*instructions) & number_or_dash(*idom) & flag(*entry)
        }
        _ => false,
    }
}

#[tactic(auto, using(crate::proofs::Fitting::fits_3, crate::proofs::Fitting::not_3))]
fn param(cs: &[u32]) -> bool
    ensures { result ≡ fits (number ▸ number ▸ place ▸ end) cs.now }
{
    match cs {
        [b, value, at] => number(*b) & number(*value) & place(*at),
        _ => false,
    }
}

#[tactic(auto, using(crate::proofs::Fitting::chain_5), unfolding(rules::specs::Rows::fits, crate::specs::Grammar::plain_op, rules::specs::Rows::reading))]
fn plain(inst: u32, kind: u32, subject: u32, by: u32, at: u32) -> bool
    ensures { result ≡ fits plain_op (inst ∷ kind ∷ subject ∷ by ∷ at ∷ []) }
{
    number(inst)
        & ((Word::DEF <= kind) & (kind <= Word::EARLYG))
        & number(subject)
        & constraint(by)
        & place(at)
}

#[tactic(auto, using(crate::proofs::Fitting::chain_5), unfolding(rules::specs::Rows::fits, crate::specs::Grammar::fixed_op, rules::specs::Rows::reading))]
fn fixed(inst: u32, kind: u32, subject: u32, by: u32, at: u32) -> bool
    ensures { result ≡ fits fixed_op (inst ∷ kind ∷ subject ∷ by ∷ at ∷ []) }
{
    number(inst) & (kind == Word::FIXED) & dash(subject) & constraint(by) & place(at)
}

#[tactic(auto, using(crate::proofs::Fitting::op_is, crate::proofs::Fitting::not_op))]
fn op(cs: &[u32]) -> bool
    ensures { result ≡ fits op_shape cs.now }
{
    match cs {
        [inst, kind, subject, by, at] => {
            plain(*inst, *kind, *subject, *by, *at) | fixed(*inst, *kind, *subject, *by, *at)
        }
        _ => false,
    }
}

#[tactic(auto, using(crate::proofs::Fitting::chain_5), unfolding(rules::specs::Rows::fits, crate::specs::Grammar::move_edit, rules::specs::Rows::reading))]
fn moved(inst: u32, kind: u32, to: u32, from: u32, value: u32) -> bool
    ensures { result ≡ fits move_edit (inst ∷ kind ∷ to ∷ from ∷ value ∷ []) }
{
    number(inst) & (kind == Word::MOVE) & place(to) & place(from) & number(value)
}

#[tactic(auto, using(crate::proofs::Fitting::chain_5), unfolding(rules::specs::Rows::fits, crate::specs::Grammar::remat_edit, rules::specs::Rows::reading))]
fn remat(inst: u32, kind: u32, to: u32, from: u32, value: u32) -> bool
    ensures { result ≡ fits remat_edit (inst ∷ kind ∷ to ∷ from ∷ value ∷ []) }
{
    number(inst) & (kind == Word::REMAT) & place(to) & dash(from) & number(value)
}

// `espill` and `ereload`.
#[tactic(auto, using(crate::proofs::Fitting::chain_5), unfolding(rules::specs::Rows::fits, crate::specs::Grammar::pair_edit, rules::specs::Rows::reading))]
fn pair(inst: u32, kind: u32, to: u32, from: u32, value: u32) -> bool
    ensures { result ≡ fits pair_edit (inst ∷ kind ∷ to ∷ from ∷ value ∷ []) }
{
    number(inst)
        & ((Word::ESPILL <= kind) & (kind <= Word::ERELOAD))
        & place(to)
        & place(from)
        & dash(value)
}

#[tactic(auto, using(crate::proofs::Fitting::chain_5), unfolding(rules::specs::Rows::fits, crate::specs::Grammar::none_edit, rules::specs::Rows::reading))]
fn none(inst: u32, kind: u32, to: u32, from: u32, value: u32) -> bool
    ensures { result ≡ fits none_edit (inst ∷ kind ∷ to ∷ from ∷ value ∷ []) }
{
    number(inst) & (kind == Word::NONE) & dash(to) & dash(from) & dash(value)
}

#[tactic(auto, unfolding(rules::specs::Rows::fits, rules::specs::Rows::edit_shape, crate::specs::Grammar::move_edit, crate::specs::Grammar::remat_edit, crate::specs::Grammar::pair_edit, crate::specs::Grammar::none_edit))]
fn edited(inst: u32, kind: u32, to: u32, from: u32, value: u32) -> bool
    ensures { result ≡ fits edit_shape (inst ∷ kind ∷ to ∷ from ∷ value ∷ []) }
{
    moved(inst, kind, to, from, value)
        | (remat(inst, kind, to, from, value)
            | (pair(inst, kind, to, from, value) | none(inst, kind, to, from, value)))
}

#[tactic(auto, using(crate::proofs::Fitting::edit_is, crate::proofs::Fitting::not_edit))]
fn edit(cs: &[u32]) -> bool
    ensures { result ≡ fits edit_shape cs.now }
{
    match cs {
        [inst, kind, to, from, value] => edited(*inst, *kind, *to, *from, *value),
        _ => false,
    }
}

// What may stand after a kind's word.
#[tactic(auto, using(crate::proofs::Fitting::two_or_more, crate::proofs::Fitting::three_or_more, crate::proofs::Fitting::flagged_two, crate::proofs::Fitting::flagged_three), unfolding(crate::specs::Grammar::fits_kind, rules::specs::Rows::reading))]
fn after(kind: u32, cs: &[u32]) -> bool
    ensures { result ≡ fits_kind kind cs.now }
{
    match kind {
        Word::SLOTS => slots(cs),
        Word::REG => flagged(cs, 3),
        Word::CLASS => flagged(cs, 2),
        Word::GROUP => listed(cs, 3),
        Word::VALUE => value(cs),
        Word::VGROUP | Word::SUCC | Word::PRED | Word::CLOB => listed(cs, 2),
        Word::BLOCK => block(cs),
        Word::PARAM => param(cs),
        Word::OP => op(cs),
        Word::EDIT => edit(cs),
        _ => false,
    }
}

#[tactic(auto, using(crate::proofs::Fitting::row_is, crate::proofs::Fitting::no_row))]
pub fn row_ok(row: &[u32]) -> bool
    ensures { result ≡ row_ok row.now }
{
    match row {
        [kind, cs @ ..] => after(*kind, cs),
        [] => false,
    }
}
