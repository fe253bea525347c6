// The call for host compilers: a sheet's bytes, level, sweep flag and output buffer. It optimises, then sweeps if the flag is 1, and returns how
// many bytes it wrote, or minus a refusal's sum of 100 times the row and the number, and then it wrote none. `clean` is the same for callers in Rattle: a Result instead of a number.
#![tactic(auto)]

ghost use Rattle.std.specs.Prelude.{◌≡◌, true, List, ℕ, ◌*◌, ◌≤◌, ◌<◌, pos, neg_ℤ, length};
ghost use Rattle.std.proofs.Math.Option.{none, some};
ghost use Rattle.entity.specs.Forms.{sum_of};
ghost use Rattle.rules.specs.Rows.{sheet_ok, rows_of};
ghost use Rattle.rules.specs.Sheet.{sheet_of};
ghost use Rattle.rules.specs.Accept.{within_limits};
ghost use Rattle.rules.specs.Forward.{Walk};
ghost use Rattle.rules.specs.Answer.{first_refusal, checks, output, cleaned, fitted, answer, returned, buffer};
ghost use Rattle.table.specs.Layout.{table_length, edit_width};
ghost use Rattle.table.specs.Rows.{count_in};
ghost use Rattle.table.specs.Table.{Indexed};
ghost use Rattle.table.specs.Sheet.{sheet_in};
ghost use Rattle.table.specs.Index.{Built, Ready};
ghost use Rattle.table.specs.Edits.{edit_at_row};
ghost use Rattle.answer.specs.Rows.{Stands};
ghost use Rattle.accept.specs.Blocks.{as_checked};
ghost use Rattle.drifthurdle.specs.Call.{sheet_refusal, TableOf, sheet_answer, as_outcome, Gives};
ghost use Rattle.drifthurdle.specs.Loading.{Storable, EditsLoaded, PlacesLoaded};
ghost use Rattle.drifthurdle.specs.Theorem.{SweepIsSafeAndExact};

use accept::blocks::check_blocks;
use accept::constraints::operands_hold;
use accept::edits::edits_hold;
use answer::rows::{COUNTS, most, render};
use bits::tables::{read, store};
use dead_spill_elimination::sweep::sweep_edits;
use entity::forms::{Level, Refusal};
use entity::numbers::{EditRow, OperandRow, SheetByte};
use move_optimizer::levels::optimise;
use names::limits::within_limits;
use names::names::names_hold;
use table::edits::{WIDTH, sheet_edit, store_edit};
use table::index::build;
use table::rows::{Kind, count, row_of};
use table::{LONG, MIDDLE, SHORT};

// The most bytes of a sheet.
const BYTES: usize = SheetByte::LIMIT as usize;

// Room for 64 edits and 64 operands, where there are no more, and for all of them.
const FEW_CELLS: usize = 64 * WIDTH;

const FEW_PLACES: usize = 64;

const ALL_CELLS: usize = EditRow::LIMIT as usize * WIDTH;

const ALL_PLACES: usize = OperandRow::LIMIT as usize;

// Stays: `level` and `swept` are the call's own arguments, handed on to where they are read.
// 3 to 6 and 9 to 12, where 1 and 2 hold and the index is built.
fn check_ready(t: &[u32]) -> Result<(), Refusal>
    ensures { (rs : List (List ℕ)) → Indexed rs t.now → sheet_ok rs ≡ true → within_limits (sheet_of rs) ≡ true → Built t.now
        → result ≡ as_checked (first_refusal (checks (sheet_of rs))) }
{
    if !names_hold(t) {
        return Err(Refusal::Names);
    }
    check_blocks(t)?;
    if !operands_hold(t) {
        return Err(Refusal::Operands);
    }
    if !edits_hold(t) {
        return Err(Refusal::Edits);
    }
    Ok(())
}

// 2 to 6 and 9 to 12 in the table's order; the index is built once the limits hold.
fn check(t: &mut [u32]) -> Result<(), Refusal>
    ensures { (rs : List (List ℕ)) → Indexed rs t.old → sheet_ok rs ≡ true
        → (result ≡ as_checked (first_refusal (checks (sheet_of rs)))) × (first_refusal (checks (sheet_of rs)) ≡ none → TableOf rs t.new) }
{
    if !within_limits(t) {
        return Err(Refusal::Limits);
    }
    build(t);
    check_ready(t)
}

// 1 to 6 and 9 to 12: the sheet into the table.
fn read_and_check(sheet: &[u8], t: &mut [u32]) -> Result<(), Refusal>
    ensures { table_length (length sheet.now) ≤ length t.old → (result ≡ as_checked (sheet_refusal sheet.now))
        × ((rs : List (List ℕ)) → rows_of sheet.now ≡ some rs → first_refusal (checks (sheet_of rs)) ≡ none → TableOf rs t.new) }
{
    if !sheet::read(sheet, t) {
        return Err(Refusal::Rows);
    }
    check(t)
}

// The sheet's edits, each in its cells.
fn load_edits(t: &[u32], edits: &mut [u32])
    ensures { ((j : ℕ) → j < count_in t.now 12 → Storable (edit_at_row t.now j)) → count_in t.now 12 * edit_width ≤ length edits.old
        → EditsLoaded t.now edits.new (count_in t.now 12) }
{
    for n in 0..count(t, Kind::EDIT) {
        store_edit(edits, EditRow(n), sheet_edit(t, EditRow(n)));
    }
}

// The operands' places.
fn load_places(t: &[u32], places: &mut [u32])
    ensures { count_in t.now 10 ≤ length places.old → PlacesLoaded t.now places.new (count_in t.now 10) }
{
    for n in 0..count(t, Kind::OP) {
        store(places, n as usize, read(row_of(t, Kind::OP, n), 5, 0));
    }
}

// The answer is measured first, and written only if it fits.
fn measured(
    t: &[u32],
    edits: &[u32],
    places: &[u32],
    counts: &[u32],
    out: &mut [u8],
) -> Result<usize, Refusal>
    ensures { (w : Walk) → Stands t.now edits.now places.now counts.now w
        → Gives (fitted (output (sheet_in t.now) w) (length out.old)) result out.old out.new }
{
    let mut nothing = [0u8; 0];
    let length = render(t, edits, places, counts, &mut nothing);
    if out.len() < length {
        return Err(Refusal::Room);
    }
    render(t, edits, places, counts, out);
    Ok(length)
}

// The same; an answer that is sure to fit is not measured.
fn fitted(
    t: &[u32],
    edits: &[u32],
    places: &[u32],
    counts: &[u32],
    out: &mut [u8],
) -> Result<usize, Refusal>
    ensures { (w : Walk) → Stands t.now edits.now places.now counts.now w
        → Gives (fitted (output (sheet_in t.now) w) (length out.old)) result out.old out.new }
{
    if most(t) <= out.len() {
        return Ok(render(t, edits, places, counts, out));
    }
    measured(t, edits, places, counts, out)
}

fn cleaned_in(
    t: &[u32],
    level: Level,
    swept: bool,
    edits: &mut [u32],
    places: &mut [u32],
    out: &mut [u8],
) -> Result<usize, Refusal>
    ensures { Ready t.now → first_refusal (checks (sheet_in t.now)) ≡ none → count_in t.now 12 * edit_width ≤ length edits.old → count_in t.now 10 ≤ length places.old
        → Gives (fitted (cleaned (sheet_in t.now) level swept) (length out.old)) result out.old out.new }
{
    let mut counts = [0u32; COUNTS];
    load_edits(t, edits);
    load_places(t, places);
    optimise(t, level, edits, places, &mut counts);
    if swept {
        sweep_edits(t, edits, places, &mut counts);
        return fitted(t, edits, places, &counts, out);
    }
    fitted(t, edits, places, &counts, out)
}

// With room for so many cells of edits and so many places.
fn cleaned_by<const CELLS: usize, const PLACES: usize>(
    t: &[u32],
    level: Level,
    swept: bool,
    out: &mut [u8],
) -> Result<usize, Refusal>
    requires cells { CELLS ≤ ALL_CELLS }
    requires places { PLACES ≤ ALL_PLACES }
    ensures { Ready t.now → first_refusal (checks (sheet_in t.now)) ≡ none → count_in t.now 12 * edit_width ≤ CELLS → count_in t.now 10 ≤ PLACES
        → Gives (fitted (cleaned (sheet_in t.now) level swept) (length out.old)) result out.old out.new }
{
    let mut edits = [0u32; CELLS];
    let mut places = [0u32; PLACES];
    cleaned_in(t, level, swept, &mut edits, &mut places, out)
}

fn cleaned(t: &[u32], level: Level, swept: bool, out: &mut [u8]) -> Result<usize, Refusal>
    ensures { Ready t.now → first_refusal (checks (sheet_in t.now)) ≡ none
        → Gives (fitted (cleaned (sheet_in t.now) level swept) (length out.old)) result out.old out.new }
{
    if count(t, Kind::EDIT) <= 64 && count(t, Kind::OP) <= 64 {
        return cleaned_by::<FEW_CELLS, FEW_PLACES>(t, level, swept, out);
    }
    cleaned_by::<ALL_CELLS, ALL_PLACES>(t, level, swept, out)
}

// The sheet by way of a table that has room for it.
fn clean_in(
    t: &mut [u32],
    sheet: &[u8],
    level: Level,
    swept: bool,
    out: &mut [u8],
) -> Result<usize, Refusal>
    ensures { table_length (length sheet.now) ≤ length t.old
        → Gives (sheet_answer sheet.now level swept (length out.old)) result out.old out.new }
{
    read_and_check(sheet, t)?;
    cleaned(t, level, swept, out)
}

// The sheet by way of a table of N cells.
fn clean_by<const N: usize>(
    sheet: &[u8],
    level: Level,
    swept: bool,
    out: &mut [u8],
) -> Result<usize, Refusal>
    requires { N ≤ LONG }
    ensures { table_length (length sheet.now) ≤ N
        → Gives (sheet_answer sheet.now level swept (length out.old)) result out.old out.new }
{
    let mut t = [0u32; N];
    clean_in(&mut t, sheet, level, swept, out)
}

fn read_and_clean(sheet: &[u8], level: Level, swept: bool, out: &mut [u8]) -> Result<usize, Refusal>
    ensures { Gives (sheet_answer sheet.now level swept (length out.old)) result out.old out.new }
{
    if sheet.len() <= 1024 {
        return clean_by::<SHORT>(sheet, level, swept, out);
    }
    if sheet.len() <= 8192 {
        return clean_by::<MIDDLE>(sheet, level, swept, out);
    }
    if BYTES < sheet.len() {
        return Err(Refusal::Rows);
    }
    clean_by::<LONG>(sheet, level, swept, out)
}

pub fn clean(sheet: &[u8], level: u32, sweep: u32, out: &mut [u8]) -> Result<usize, Refusal>
    ensures { (result ≡ as_outcome (answer sheet.now level sweep (length out.old)))
        × (out.new ≡ buffer (answer sheet.now level sweep (length out.old)) out.old) }
{
    let level = Level::of(level).ok_or(Refusal::Call)?;
    if 1 < sweep {
        return Err(Refusal::Call);
    }
    read_and_clean(sheet, level, sweep == 1, out)
}

// Minus the sum of 100 times the row and the number.
fn refused(r: Refusal) -> i64
    ensures { result ≡ neg_ℤ (pos (sum_of r)) }
{
    -(r.sum() as i64)
}

#[unsafe(no_mangle)]
pub extern "C" fn drifthurdle_clean(sheet: &[u8], level: u32, sweep: u32, out: &mut [u8]) -> i64
    ensures { (result ≡ returned (answer sheet.now level sweep (length out.old)))
        × (out.new ≡ buffer (answer sheet.now level sweep (length out.old)) out.old) }
{
    match clean(sheet, level, sweep, out) {
        Err(r) => refused(r),
        Ok(n) => n as i64,
    }
}

// What the sweep does to an answer is safe and exact.
pub fn sweep_is_safe_and_exact()
    ensures { SweepIsSafeAndExact }
{}
