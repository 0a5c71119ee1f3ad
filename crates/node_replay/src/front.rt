// The keys and pointers of a draft, which stand from a place on: what is known by the first and the last of them, and
// all moved to the front.
ghost use Rattle.std.specs.Prelude.{◌≡◌, ◌+◌, ◌≤◌};
ghost use Rattle.layout.specs.Layout.{most_keys};
ghost use Rattle.node_replay.specs.Front.{Arrays, lowered, BehindIn, FirstIn};

use layout::MOST_KEYS;

// Whether a key is behind all others, with room behind them.
#[tactic(auto, unfolding(crate::specs::Front::behind_in))]
pub fn is_behind(keys: &[u32; MOST_KEYS], first: usize, count: usize, key: u32) -> bool
    requires { first + count ≤ most_keys }
    ensures { BehindIn keys.now first count key result }
{
    let end = first + count;
    end < MOST_KEYS && (count == 0 || keys[end - 1] < key)
}

// Whether a key is the first.
#[tactic(auto, unfolding(crate::specs::Front::first_in))]
pub fn is_first(keys: &[u32; MOST_KEYS], first: usize, count: usize, key: u32) -> bool
    requires { first + count ≤ most_keys }
    ensures { FirstIn keys.now first count key result }
{
    count != 0 && keys[first] == key
}

// Keys and pointers moved down to the front, if they are not there.
pub fn settle(
    keys: &mut [u32; MOST_KEYS],
    pointers: &mut [u32; MOST_KEYS],
    first: usize,
    count: usize,
)
    requires { (first + count ≤ most_keys) × Arrays keys.old pointers.old }
    ensures { (keys.new ≡ lowered first count keys.old)
        × (pointers.new ≡ lowered first count pointers.old) }
{
    if first != 0 {
        keys.copy_within(first..first + count, 0);
        pointers.copy_within(first..first + count, 0);
    }
}
