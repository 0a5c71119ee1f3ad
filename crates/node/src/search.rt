// The search in a node, and what stands at a place.
ghost use Rattle.std.specs.Prelude.{◌≡◌, ◌≤◌, ◌<◌};
ghost use Rattle.layout.specs.Layout.{most_keys};
ghost use Rattle.pairs.specs.Pairs.{lookup};
ghost use Rattle.node.specs.Search.{child_place, key_at, pointer_at};
ghost use Rattle.node.specs.Ascends.{ascends};
ghost use Rattle.node.specs.Found.{found, place_of};
ghost use Rattle.node.specs.FoundIn.{FoundIn};
ghost use Rattle.node.specs.Value.{pairs_in, Sized, Held};

use crate::NodeValue;
use layout::MOST_KEYS;

// The place of a key, or of the first key above it, as `binary_search` answers it, but for a replay, whose keys come
// in an order that the processor foresees: each comparison is a branch, and the first equal key ends it.
pub fn find_in_replay(keys: &[u32; MOST_KEYS], count: usize, key: u32) -> Result<usize, usize>
    requires { count ≤ most_keys }
    ensures { FoundIn keys.now count key result }
{
    let mut low = 0;
    let mut high = count;
    while low < high {
        let middle = (low + high) / 2;
        let other = keys[middle];
        if other == key {
            return Ok(middle);
        }
        if other < key {
            low = middle + 1;
        } else {
            high = middle;
        }
    }
    Err(low)
}

// The same of a key that most often is behind all others: a node's entries come with keys ascending.
pub fn find_behind(keys: &[u32; MOST_KEYS], count: usize, key: u32) -> Result<usize, usize>
    requires { count ≤ most_keys }
    ensures { FoundIn keys.now count key result }
{
    if count == 0 || keys[count - 1] < key {
        return Err(count);
    }
    find_in_replay(keys, count, key)
}

// The place of a key, or of the first key above it.
pub fn find(v: NodeValue, key: u32) -> Result<usize, usize>
    requires { Held v }
    ensures { result ≡ found key (pairs_in v) }
{
    v.keys[..v.count].binary_search(&key)
}

// The pointer at a key: in a leaf the value that the map has there.
pub fn value_at(v: NodeValue, key: u32) -> Option<u32>
    requires { Held v }
    ensures { result ≡ lookup key (pairs_in v) }
{
    match find(v, key) {
        Ok(i) => Some(pointer(v, i)),
        Err(_) => None,
    }
}

// The place that a search answered, whether the key there is equal or above.
pub fn place_of(found: Result<usize, usize>) -> usize
    ensures { result ≡ place_of found }
{
    match found {
        Ok(i) | Err(i) => i,
    }
}

// The place of the child for a key: that of the first key above it.
pub fn child_place(v: NodeValue, key: u32) -> usize
    requires { Held v }
    ensures { (result ≡ child_place key (pairs_in v)) × (result ≤ v.count) }
{
    v.keys[..v.count].partition_point(|&k| k <= key)
}

// The key at a place.
pub fn key(v: NodeValue, at: usize) -> u32
    requires { (Sized v) × (at < v.count) }
    ensures { result ≡ key_at (pairs_in v) at }
{
    v.keys[at]
}

// The pointer at a place; behind all keys it is the link.
pub fn pointer(v: NodeValue, at: usize) -> u32
    requires { Sized v }
    ensures { result ≡ pointer_at (pairs_in v) v.link at }
{
    if at < v.count { v.pointers[at] } else { v.link }
}

// The child of a branch that a key leads to.
pub fn child(v: NodeValue, key: u32) -> u32
    requires { Held v }
    ensures { result ≡ pointer_at (pairs_in v) v.link (child_place key (pairs_in v)) }
{
    pointer(v, child_place(v, key))
}

// Whether the keys ascend, from a lowest one up to below a bound.
pub fn ascends(v: NodeValue, low: u64, high: u64) -> bool
    requires { Sized v }
    ensures { result ≡ ascends low high (pairs_in v) }
{
    let mut least = low;
    for key in &v.keys[..v.count] {
        let key = u64::from(*key);
        if key < least || high <= key {
            return false;
        }
        least = key + 1;
    }
    true
}
