// Total reads and stores: past the end a read gives `past` and a store does nothing.
ghost use Rattle.std.specs.Prelude.{◌≡◌, get_or, set};

pub fn read<T: Copy>(items: &[T], i: usize, past: T) -> T
    ensures { result ≡ get_or items.now i past }
{
    if i < items.len() { items[i] } else { past }
}

pub fn store<T: Copy>(items: &mut [T], i: usize, v: T)
    ensures { items.new ≡ set items.old i v }
{
    if i < items.len() {
        items[i] = v;
    }
}
