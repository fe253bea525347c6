// A set of numbers below `NumberSet::LIMIT`: a value whose operations give back the new set.
// A number of the limit or more is in no set, and putting it in changes nothing.
ghost use Rattle.std.specs.Prelude.{◌≡◌, false, ◌&&◌, ◌||◌, not, eqb, Some, None};
ghost use Rattle.laws.specs.First.{first};
ghost use Rattle.bits.specs.Sets.{has, set_of, set_limit, Members, OnlySet};

#[derive(Clone, Copy)]
pub struct NumberSet {
    pub words: [u64; NumberSet::WORDS],
}

impl NumberSet {
    pub const LIMIT: u32 = 256;

    pub const WORDS: usize = NumberSet::LIMIT as usize / 64;

    pub fn empty() -> NumberSet
        ensures { result ≡ set_of (λ k. false) }
    {
        NumberSet {
            words: [0; NumberSet::WORDS],
        }
    }

    pub fn contains(self, n: u32) -> bool
        ensures { result ≡ has self n }
    {
        let i = (n / 64) as usize;
        if i < NumberSet::WORDS {
            (self.words[i] >> (n % 64)) & 1 == 1
        } else {
            false
        }
    }

    pub fn insert(mut self, n: u32) -> NumberSet
        ensures { result ≡ set_of (λ k. has self k || eqb k n) }
    {
        let i = (n / 64) as usize;
        if i < NumberSet::WORDS {
            self.words[i] = self.words[i] | (1 << (n % 64));
        }
        self
    }

    pub fn remove(mut self, n: u32) -> NumberSet
        ensures { result ≡ set_of (λ k. has self k && not (eqb k n)) }
    {
        let i = (n / 64) as usize;
        if i < NumberSet::WORDS {
            self.words[i] = self.words[i] & !(1 << (n % 64));
        }
        self
    }

    pub fn meet(mut self, other: NumberSet) -> NumberSet
        ensures { result ≡ set_of (λ k. has self k && has other k) }
    {
        for i in 0..NumberSet::WORDS {
            self.words[i] = self.words[i] & other.words[i];
        }
        self
    }

    pub fn join(mut self, other: NumberSet) -> NumberSet
        ensures { result ≡ set_of (λ k. has self k || has other k) }
    {
        for i in 0..NumberSet::WORDS {
            self.words[i] = self.words[i] | other.words[i];
        }
        self
    }

    pub fn lowest(self) -> Option<u32>
        ensures { result ≡ first Some None (has self) 0 set_limit }
    {
        for i in 0..NumberSet::WORDS {
            let t = u64::trailing_zeros(self.words[i]);
            if t < 64 {
                return Some(i as u32 * 64 + t);
            }
        }
        None
    }
}

// A set is told by its members, and there is one for every choice of members.
pub fn sets_by_members()
    ensures members { Members }
    ensures only_set { OnlySet }
{}
