// The cells of a row's fields: a number is itself, below `Number::LIMIT`; what has a mark is the mark and its number; a word is `Mark::WORD` and its
// place among document 01's words. Which cell a field's bytes are is left to the crates above.
// Stays: what is at rest in the sheet's table are numbers, and the theorems `rules::marks_agree` and `words_agree` name each of these constants.
#[derive(Clone, Copy)]
pub struct Number(pub u32);

#[derive(Clone, Copy)]
pub struct Mark(pub u32);

#[derive(Clone, Copy)]
pub struct Word(pub u32);

impl Number {
    // Five digits at most.
    pub const LIMIT: u32 = 100000;
}

impl Mark {
    pub const WORD: u32 = 100000;

    pub const REG: u32 = 200000;

    pub const SLOT: u32 = 300000;

    pub const CLASS: u32 = 400000;

    pub const FIXED: u32 = 500000;

    pub const REUSE: u32 = 600000;

    // Every cell is below.
    pub const END: u32 = 700000;
}

impl Word {
    pub const DASH: u32 = 100000;

    pub const SLOTS: u32 = 100001;

    pub const REG: u32 = 100002;

    pub const CLASS: u32 = 100003;

    pub const GROUP: u32 = 100004;

    pub const VALUE: u32 = 100005;

    pub const VGROUP: u32 = 100006;

    pub const BLOCK: u32 = 100007;

    pub const SUCC: u32 = 100008;

    pub const PRED: u32 = 100009;

    pub const PARAM: u32 = 100010;

    pub const OP: u32 = 100011;

    pub const CLOB: u32 = 100012;

    pub const EDIT: u32 = 100013;

    pub const DEF: u32 = 100014;

    pub const USE: u32 = 100015;

    pub const EARLY: u32 = 100016;

    pub const DEFG: u32 = 100017;

    pub const USEG: u32 = 100018;

    pub const EARLYG: u32 = 100019;

    pub const FIXED: u32 = 100020;

    pub const MOVE: u32 = 100021;

    pub const REMAT: u32 = 100022;

    pub const ESPILL: u32 = 100023;

    pub const ERELOAD: u32 = 100024;

    pub const NONE: u32 = 100025;
}
