// Refusal 6: the edit rules. An instruction's edits are looked up only once they stand in order, and only where one of the edits is an emergency.
ghost use Rattle.std.specs.Prelude.{◌≡◌, Bool, true, false, ◌||◌, [], ℕ, ◌-◌, eqb, take, drop};
ghost use Rattle.std.proofs.Math.Option.{none, Option-elim};
ghost use Rattle.laws.specs.Lists.{all, from};
ghost use Rattle.bits.specs.Sets.{set_of};
ghost use Rattle.rules.specs.Sheet.{home_of, block_count};
ghost use Rattle.rules.specs.Accept.{edit_names, slot_exists, reg_exists, in_order, placed, paired, edits_in, pair_holds, edits_hold};
ghost use Rattle.table.specs.Sheet.{sheet_in};
ghost use Rattle.table.specs.Index.{Ready};
ghost use Rattle.table.specs.View.{edit_row};
ghost use Rattle.accept.specs.Pairs.{paired_by, after_edit, is_emergency, edits_of, home_set, shared_set, some_emergency, edit_holds, each_holds, pair_apart};

use bits::sets::NumberSet;
use bits::tables::read;
use entity::cells::Word;
use entity::forms::Edit;
use entity::numbers::{Block, EditRow, Inst, PhysReg, SpillSlot, Value};
use entity::sets::{SlotSet, UnitSet};
use names::lists::{any_in, with_all};
use table::edits::sheet_edit;
use table::index::{Range, edit_rows, insts_of};
use table::rows::{Kind, count, row_of};
use table::view::{edit_at, home, units};

fn in_order(t: &[u32]) -> bool
    ensures { result ≡ in_order (sheet_in t.now).edits }
{
    let mut last: u32 = 0;
    for n in 0..count(t, Kind::EDIT) {
        let i = edit_at(t, EditRow(n));
        if i.0 < last {
            return false;
        }
        last = i.0;
    }
    true
}

#[tactic(auto, unfolding(rules::specs::Accept::placed))]
fn placed(e: Edit) -> bool
    ensures { result ≡ placed e }
{
    !matches!(e, Edit::Misplaced { .. })
}

// An emergency spill or reload, well placed or not.
fn is_emergency(t: &[u32], n: EditRow) -> bool
    ensures { result ≡ is_emergency (edit_row (sheet_in t.now) n.0).edit }
{
    let word = read(row_of(t, Kind::EDIT, n.0), 2, 0);
    word == Word::ESPILL || word == Word::ERELOAD
}

fn some_emergency(t: &[u32]) -> bool
    ensures { result ≡ some_emergency (sheet_in t.now) }
{
    (0..count(t, Kind::EDIT)).any(|n| is_emergency(t, EditRow(n)))
}

// The emergency spill that is not yet closed, after one edit more; an error where the pairs are broken.
#[tactic(auto, unfolding(crate::specs::Pairs::after_edit))]
fn after(held: Option<(SpillSlot, PhysReg)>, e: Edit) -> Result<Option<(SpillSlot, PhysReg)>, ()>
    ensures { result ≡ after_edit e held }
{
    match (held, e) {
        (None, Edit::Espill { to, from }) => Ok(Some((to, from))),
        (Some((s, r)), Edit::Ereload { to, from }) if s == from && r == to => Ok(None),
        (_, Edit::Espill { .. } | Edit::Ereload { .. }) => Err(()),
        _ => Ok(held),
    }
}

// At the end of a block no emergency spill is open.
// Stays: by this contract the edit `left_open` is refused; in `paired_in` it was refused for its form alone.
#[tactic(auto, unfolding(crate::specs::Pairs::paired_by, rules::specs::Accept::paired))]
fn is_closed(held: Option<(SpillSlot, PhysReg)>) -> bool
    ensures { result ≡ paired_by held [] }
{
    match held {
        None => true,
        Some(_) => false,
    }
}

// The rows of the edits at the instructions of a block.
fn edits_in(t: &[u32], b: Block) -> Range
    ensures { Ready t.now → in_order (sheet_in t.now).edits ≡ true
        → edits_of (take (result.to - result.from) (drop result.from (sheet_in t.now).edits)) ≡ edits_in (sheet_in t.now) b.0 }
{
    let insts = insts_of(t, b);
    if insts.to <= insts.from {
        return Range { from: 0, to: 0 };
    }
    let first = edit_rows(t, Inst(insts.from));
    let last = edit_rows(t, Inst(insts.to - 1));
    Range {
        from: first.from,
        to: last.to,
    }
}

fn paired_in(t: &[u32], b: Block) -> bool
    ensures { Ready t.now → in_order (sheet_in t.now).edits ≡ true → result ≡ paired none (edits_in (sheet_in t.now) b.0) }
{
    let rows = edits_in(t, b);
    let mut held = None;
    for n in rows.from..rows.to {
        let Ok(next) = after(held, sheet_edit(t, EditRow(n))) else {
            return false;
        };
        held = next;
    }
    is_closed(held)
}

fn all_paired(t: &[u32]) -> bool
    ensures { Ready t.now → in_order (sheet_in t.now).edits ≡ true
        → result ≡ all (λ b. paired none (edits_in (sheet_in t.now) b)) (from 0 (block_count (sheet_in t.now))) }
{
    (0..count(t, Kind::BLOCK)).all(|b| paired_in(t, Block(b)))
}

// The set with the home slot of v, if any.
fn with_home(t: &[u32], s: SlotSet, v: Value) -> SlotSet
    ensures { (f : ℕ → Bool) → s.0 ≡ set_of f → result.0 ≡ set_of (λ k. f k || Option-elim (home_of (sheet_in t.now) v.0) false (eqb k)) }
{
    let Some(h) = home(t, v) else {
        return s;
    };
    s.insert(h)
}

fn home_slots(t: &[u32]) -> SlotSet
    ensures { result.0 ≡ home_set (sheet_in t.now) }
{
    let mut s = SlotSet::empty();
    for v in 0..count(t, Kind::VALUE) {
        s = with_home(t, s, Value(v));
    }
    s
}

// The units of several registers.
fn shared_units(t: &[u32]) -> UnitSet
    ensures { result.0 ≡ shared_set (sheet_in t.now) }
{
    let mut seen = NumberSet::empty();
    let mut shared = NumberSet::empty();
    for r in 0..count(t, Kind::REG) {
        let own = with_all(NumberSet::empty(), units(t, PhysReg(r)));
        shared = shared.join(seen.meet(own));
        seen = seen.join(own);
    }
    UnitSet::of(shared)
}

// A pair's slot is no home slot, and its register shares no unit with another.
fn pair_apart(t: &[u32], homes: SlotSet, shared: UnitSet, s: SpillSlot, r: PhysReg) -> bool
    ensures { Ready t.now → homes.0 ≡ home_set (sheet_in t.now) → shared.0 ≡ shared_set (sheet_in t.now)
        → slot_exists (sheet_in t.now) s.0 ≡ true → reg_exists (sheet_in t.now) r.0 ≡ true → result ≡ pair_apart (sheet_in t.now) s.0 r.0 }
{
    !homes.contains(s) && !any_in(units(t, r), shared.0)
}

#[tactic(auto, unfolding(rules::specs::Accept::pair_holds, rules::specs::Accept::edit_names, crate::specs::Pairs::pair_apart))]
fn pair_holds(t: &[u32], homes: SlotSet, shared: UnitSet, e: Edit) -> bool
    ensures { Ready t.now → homes.0 ≡ home_set (sheet_in t.now) → shared.0 ≡ shared_set (sheet_in t.now)
        → edit_names (sheet_in t.now) e ≡ true → result ≡ pair_holds (sheet_in t.now) e }
{
    match e {
        Edit::Espill { to, from } => pair_apart(t, homes, shared, to, from),
        Edit::Ereload { to, from } => pair_apart(t, homes, shared, from, to),
        _ => true,
    }
}

#[tactic(auto, unfolding(crate::specs::Pairs::edit_holds))]
fn edit_holds(t: &[u32], homes: SlotSet, shared: UnitSet, e: Edit) -> bool
    ensures { Ready t.now → homes.0 ≡ home_set (sheet_in t.now) → shared.0 ≡ shared_set (sheet_in t.now)
        → edit_names (sheet_in t.now) e ≡ true → result ≡ edit_holds (sheet_in t.now) e }
{
    placed(e) && pair_holds(t, homes, shared, e)
}

// Each edit by itself.
fn each_holds(t: &[u32]) -> bool
    ensures { Ready t.now → result ≡ each_holds (sheet_in t.now) }
{
    let homes = home_slots(t);
    let shared = shared_units(t);
    (0..count(t, Kind::EDIT)).all(|n| edit_holds(t, homes, shared, sheet_edit(t, EditRow(n))))
}

pub fn edits_hold(t: &[u32]) -> bool
    ensures { Ready t.now → result ≡ edits_hold (sheet_in t.now) }
{
    in_order(t) && (!some_emergency(t) || each_holds(t) && all_paired(t))
}
