// The counts of an answer, and how one of them goes up.
ghost use Rattle.std.specs.Prelude.{◌≡◌, get_or, ◌<◌};
ghost use Rattle.rules.specs.Forward.{count};

use bits::tables::{read, store};

// A count's place in the count row.
// Stays: `tally` is public and promises for every number; an enum would be a narrower type.
#[derive(Clone, Copy)]
pub struct Count(pub usize);

impl Count {
    pub const PREPROCESSED: Count = Count(0);

    pub const REDUNDANT_RELOAD: Count = Count(1);

    pub const REDUNDANT_MOVE: Count = Count(2);

    pub const REDUNDANT_REMAT: Count = Count(3);

    pub const REDUNDANT_SPILL: Count = Count(4);

    pub const RELOAD_TO_MOVE: Count = Count(5);

    pub const STACK_USE: Count = Count(6);

    pub const DEAD_SPILL: Count = Count(7);

    pub const DEAD_REMAT: Count = Count(8);
}

// The rule of count k fired once more.
#[tactic(auto, unfolding(rules::specs::Forward::count))]
pub fn tally(counts: &mut [u32], k: Count)
    ensures { get_or counts.old k.0 0 < 4294967295 → counts.new ≡ count k.0 counts.old }
{
    let at = k.0;
    let n = read(counts, at, 0);
    if n < 4294967295 {
        store(counts, at, n + 1);
    }
}
