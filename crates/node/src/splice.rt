// One array of a node, in place: a value put in at a place, or the value at a place taken out.
ghost use Rattle.std.specs.Prelude.{◌≡◌, ◌+◌, ◌-◌, ◌≤◌, ◌<◌, length, take};
ghost use Rattle.layout.specs.Layout.{most_keys};
ghost use Rattle.node.specs.Splice.{insert_at, remove_at};

use layout::MOST_KEYS;

// The first `count` values with one more at a place: those from there on move up.
pub fn insert(a: &mut [u32; MOST_KEYS], count: usize, at: usize, x: u32)
    requires { (at ≤ count) × (count < most_keys) × (length a.old ≡ most_keys) }
    ensures { (take (count + 1) a.new ≡ insert_at at x (take count a.old))
        × (length a.new ≡ most_keys) }
{
    a.copy_within(at..count, at + 1);
    a[at] = x;
}

// The first `count` values without the one at a place: those behind it move down.
pub fn remove(a: &mut [u32; MOST_KEYS], count: usize, at: usize)
    requires { (at < count) × (count ≤ most_keys) × (length a.old ≡ most_keys) }
    ensures { (take (count - 1) a.new ≡ remove_at at (take count a.old))
        × (length a.new ≡ most_keys) }
{
    a.copy_within(at + 1..count, at);
}
