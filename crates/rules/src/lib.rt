// The rules of document 01 as definitions: read specs/ in the order of specs/Lib.antt, with document 01 beside it.
// The functions do nothing: each contract is a theorem that guards the definitions, so that no check passes without it.
#![tactic(auto)]

ghost use Rattle.std.specs.Prelude.{◌≡◌};
ghost use Rattle.rules.specs.Cells.{word, number_limit, word_mark, reg_mark, slot_mark, class_mark, fixed_mark, reuse_mark, mark_end};
ghost use Rattle.rules.specs.Words.{Named};
ghost use Rattle.rules.specs.Examples.{Examples};
ghost use Rattle.rules.specs.Readings.{Readings};
ghost use Rattle.rules.specs.Sheets.{RowsRead};
ghost use Rattle.rules.specs.Worked.{WorkedSheet};

use entity::cells::{Mark, Number, Word};

// The marks of the code are those of the definitions.
pub fn marks_agree()
    ensures number_limit { Number.LIMIT ≡ number_limit }
    ensures word_mark { Mark.WORD ≡ word_mark }
    ensures reg_mark { Mark.REG ≡ reg_mark }
    ensures slot_mark { Mark.SLOT ≡ slot_mark }
    ensures class_mark { Mark.CLASS ≡ class_mark }
    ensures fixed_mark { Mark.FIXED ≡ fixed_mark }
    ensures reuse_mark { Mark.REUSE ≡ reuse_mark }
    ensures mark_end { Mark.END ≡ mark_end }
{}

// So are the words.
pub fn words_agree()
    ensures dash { Word.DASH ≡ word "-" }
    ensures slots { Word.SLOTS ≡ word "slots" }
    ensures reg { Word.REG ≡ word "reg" }
    ensures class { Word.CLASS ≡ word "class" }
    ensures group { Word.GROUP ≡ word "group" }
    ensures value { Word.VALUE ≡ word "value" }
    ensures vgroup { Word.VGROUP ≡ word "vgroup" }
    ensures block { Word.BLOCK ≡ word "block" }
    ensures succ { Word.SUCC ≡ word "succ" }
    ensures pred { Word.PRED ≡ word "pred" }
    ensures param { Word.PARAM ≡ word "param" }
    ensures op { Word.OP ≡ word "op" }
    ensures clob { Word.CLOB ≡ word "clob" }
    ensures edit { Word.EDIT ≡ word "edit" }
    ensures def { Word.DEF ≡ word "def" }
    ensures use_word { Word.USE ≡ word "use" }
    ensures early { Word.EARLY ≡ word "early" }
    ensures defg { Word.DEFG ≡ word "defg" }
    ensures useg { Word.USEG ≡ word "useg" }
    ensures earlyg { Word.EARLYG ≡ word "earlyg" }
    ensures fixed { Word.FIXED ≡ word "fixed" }
    ensures move_word { Word.MOVE ≡ word "move" }
    ensures remat { Word.REMAT ≡ word "remat" }
    ensures espill { Word.ESPILL ≡ word "espill" }
    ensures ereload { Word.ERELOAD ≡ word "ereload" }
    ensures none { Word.NONE ≡ word "none" }
{}

// Each mark and each word is the cell that the definitions find for it.
pub fn cells_named()
    ensures { Named }
{}

// Rows are read, or refused with 1, as the table of specs/Sheets.antt says.
pub fn rows_read()
    ensures { RowsRead }
{}

// C1 to C11 come out as document 01 says.
pub fn worked_sheet()
    ensures { WorkedSheet }
{}

// The sheets of docs/DECISIONS.md come out as it says.
pub fn readings()
    ensures { Readings }
{}

// The sweep, "brought on" and the model of a run, on the small cases of specs/Examples.antt.
pub fn small_cases()
    ensures { Examples }
{}
