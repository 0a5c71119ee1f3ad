// The halves of a full node with a pair more, made from its 24 pairs and the new one: 25 pairs stand nowhere.
#![tactic(auto)]

ghost use Rattle.std.specs.Prelude.{◌≡◌, ◌+◌, ◌≤◌, ◌<◌, length, get_or, take, drop};
ghost use Rattle.layout.specs.Layout.{most_keys, kept_keys};
ghost use Rattle.node.specs.Change.{change, put};
ghost use Rattle.node.specs.Splice.{insert_at};
ghost use Rattle.node.specs.Value.{node_of, Becomes};
ghost use Rattle.node.specs.Halves.{lower_half, upper_half, middle_key, lower_link, upper_from};
ghost use Rattle.node_split.specs.Split.{Splits};

use layout::{KEPT_KEYS, MOST_KEYS};
use node::{NodeValue, Shape};
use std::cmp::Ordering;

// The pairs that are split, and the first of them past the middle one, which a branch hands upwards.
const SPLIT_KEYS: usize = MOST_KEYS + 1;

const PAST_MIDDLE: usize = KEPT_KEYS + 1;

// The value at an index of the array with one more at a place.
fn value_at(a: &[u32; MOST_KEYS], at: usize, x: u32, i: usize) -> u32
    requires { (at ≤ most_keys) × (i ≤ most_keys) }
    ensures { result ≡ get_or (insert_at at x a.now) i 0 }
{
    match i.cmp(&at) {
        Ordering::Less => a[i],
        Ordering::Equal => x,
        Ordering::Greater => a[i - 1],
    }
}

// The n values from an index on of the array with one more at a place. In a frame of its own, since the longest chain
// of calls comes by here.
#[inline(never)]
fn values_from(a: &[u32; MOST_KEYS], at: usize, x: u32, from: usize, n: usize) -> [u32; MOST_KEYS]
    requires { (at ≤ most_keys) × (n ≤ most_keys) × (from + n ≤ most_keys + 1) }
    ensures { (take n result ≡ take n (drop from (insert_at at x a.now))) × (length result ≡ most_keys) }
{
    let mut b = [0; MOST_KEYS];
    for i in 0..n {
        b[i] = value_at(a, at, x, from + i);
    }
    b
}

// The lower half's link: a leaf's names the upper half, a branch's is the pointer of the key that rises.
fn lower_link(shape: Shape, upper: u32, rising: u32) -> u32
    ensures { result ≡ lower_link shape upper rising }
{
    match shape {
        Shape::Leaf => upper,
        Shape::Branch => rising,
    }
}

// How many pairs stand before the upper half.
fn upper_from(shape: Shape) -> usize
    ensures { (result ≡ upper_from shape) × (kept_keys ≤ result) × (result ≤ kept_keys + 1) }
{
    match shape {
        Shape::Leaf => KEPT_KEYS,
        Shape::Branch => PAST_MIDDLE,
    }
}

#[tactic(auto, using(crate::specs::Split::splits_at))]
// The lower half of the node with a pair more, which keeps the first 12 pairs; `upper` is the id of the upper one.
pub fn lower(v: NodeValue, at: usize, key: u32, pointer: u32, upper: u32) -> NodeValue
    requires { Splits v at key }
    ensures { Becomes result (lower_half (change (put key pointer) (node_of v)) upper) }
{
    let rising = value_at(&v.pointers, at, pointer, KEPT_KEYS);
    NodeValue {
        count: KEPT_KEYS,
        keys: values_from(&v.keys, at, key, 0, KEPT_KEYS),
        pointers: values_from(&v.pointers, at, pointer, 0, KEPT_KEYS),
        link: lower_link(v.shape, upper, rising),
        ..v
    }
}

#[tactic(auto, using(crate::specs::Split::splits_at))]
// The upper half of the node with a pair more: the last 13 pairs of a leaf, the last 12 of a branch.
pub fn upper(v: NodeValue, at: usize, key: u32, pointer: u32) -> NodeValue
    requires { Splits v at key }
    ensures { Becomes result (upper_half (change (put key pointer) (node_of v))) }
{
    let from = upper_from(v.shape);
    let count = SPLIT_KEYS - from;
    NodeValue {
        count,
        keys: values_from(&v.keys, at, key, from, count),
        pointers: values_from(&v.pointers, at, pointer, from, count),
        ..v
    }
}

// The key between the halves.
#[tactic(auto, using(crate::specs::Split::splits_at))]
pub fn middle(v: NodeValue, at: usize, key: u32, pointer: u32) -> u32
    requires { Splits v at key }
    ensures { result ≡ middle_key (change (put key pointer) (node_of v)) }
{
    value_at(&v.keys, at, key, KEPT_KEYS)
}
