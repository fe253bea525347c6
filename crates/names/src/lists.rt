// Tests over a list of numbers, and the sets of such lists.
ghost use Rattle.std.specs.Prelude.{◌≡◌, true, ◌||◌, ltb};
ghost use Rattle.laws.specs.Lists.{all, any, is_in, twice};
ghost use Rattle.bits.specs.Sets.{has, set_of, set_limit};

use bits::sets::NumberSet;

// Each of them is below `limit`.
pub(crate) fn all_below(list: &[u32], limit: u32) -> bool
    ensures { result ≡ all (λ x. ltb x limit) list.now }
{
    list.iter().all(|x| *x < limit)
}

// x is one of them.
pub fn is_in(x: u32, list: &[u32]) -> bool
    ensures { result ≡ is_in x list.now }
{
    list.contains(&x)
}

// One of them stands twice, where all are below `NumberSet::LIMIT`.
pub(crate) fn stands_twice(list: &[u32]) -> bool
    ensures { all (λ x. ltb x set_limit) list.now ≡ true → result ≡ twice list.now }
{
    let mut seen = NumberSet::empty();
    for x in list {
        if seen.contains(*x) {
            return true;
        }
        seen = seen.insert(*x);
    }
    false
}

// Each of them is in the set.
pub(crate) fn all_in(list: &[u32], s: NumberSet) -> bool
    ensures { result ≡ all (has s) list.now }
{
    list.iter().all(|x| s.contains(*x))
}

// One of them is in the set.
pub fn any_in(list: &[u32], s: NumberSet) -> bool
    ensures { result ≡ any (has s) list.now }
{
    list.iter().any(|x| s.contains(*x))
}

// The set with each of them.
pub fn with_all(s: NumberSet, list: &[u32]) -> NumberSet
    ensures { result ≡ set_of (λ k. has s k || is_in k list.now) }
{
    let mut grown = s;
    for x in list {
        grown = grown.insert(*x);
    }
    grown
}
