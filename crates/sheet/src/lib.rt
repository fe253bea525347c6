// Refusal 1 of document 01: a sheet's bytes into the table's cells, starts and KIND, or false where the sheet is over 65,536 bytes
// or its rows are broken. Limits, names and the later refusals are left to the crates above, and so are the other entries of INDEX.
#![tactic(auto)]

ghost use Rattle.std.specs.Prelude.{◌≡◌, ◌&&◌, List, ℕ, ◌≤◌, leb, length};
ghost use Rattle.std.proofs.Math.Option.{some};
ghost use Rattle.rules.specs.Rows.{rows_of};
ghost use Rattle.rules.specs.Sheets.{is_some};
ghost use Rattle.table.specs.Layout.{table_length};
ghost use Rattle.table.specs.Table.{Indexed};

use entity::numbers::SheetByte;
use table::index::room;

mod fields;
mod grammar;
mod kinds;
mod lexing;
mod shapes;

// The most bytes of a sheet.
const BYTES: usize = SheetByte::LIMIT as usize;

// Stays: public; it answers yes or no, and the table is lent.
pub fn read(sheet: &[u8], t: &mut [u32]) -> bool
    ensures value { result ≡ (leb (table_length (length sheet.now)) (length t.old) && is_some (rows_of sheet.now)) }
    ensures indexed { (rs : List (List ℕ)) → rows_of sheet.now ≡ some rs → table_length (length sheet.now) ≤ length t.old → Indexed rs t.new }
{
    if t.len() < room(sheet.len()) {
        return false;
    }
    if BYTES < sheet.len() {
        return false;
    }
    let Some(n) = lexing::rows(sheet, t) else {
        return false;
    };
    if !grammar::sheet_ok(t, n) {
        return false;
    }
    kinds::index(t, n);
    true
}
