// The call as C sees it: the archive exports `drifthurdle_clean`, of crate `drifthurdle`, which says what it does.
#![tactic(auto)]

ghost use Rattle.std.specs.Prelude.{◌≡◌, length};
ghost use Rattle.rules.specs.Answer.{answer, returned, buffer};

#[unsafe(no_mangle)]
pub extern "C" fn drifthurdle_clean(sheet: &[u8], level: u32, sweep: u32, out: &mut [u8]) -> i64
    ensures { (result ≡ returned (answer sheet.now level sweep (length out.old)))
        × (out.new ≡ buffer (answer sheet.now level sweep (length out.old)) out.old) }
{
    drifthurdle::drifthurdle_clean(sheet, level, sweep, out)
}
