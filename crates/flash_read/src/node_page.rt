// A node read from its node page: keys and pointers into two arrays that the caller lends, at their front; the rest
// is the outline that is answered.
ghost use Rattle.std.specs.Prelude.{◌≡◌, ◌+◌, ◌*◌, ◌≤◌, length};
ghost use Rattle.flash_blocks.specs.Pages.{pages_of};
ghost use Rattle.node.specs.Node.{node};
ghost use Rattle.node.specs.Drafts.{Redone};
ghost use Rattle.node_replay.specs.Front.{Arrays};
ghost use Rattle.node_replay.specs.Outline.{empty_outline, broken_at, draft_from};
ghost use Rattle.wire.specs.Field.{payload_at};
ghost use Rattle.page.specs.Decode as decode;
ghost use Rattle.flash_read.specs.NodePage.{if_ascends, node_of_payload, node_page_at};
ghost use Rattle.layout.specs.Layout.{most_keys};

use flash_blocks::page::{has_page, page_part};
use layout::MOST_KEYS;
use node::{DraftState, Shape};
use node_replay::outline::{Outline, empty_outline};
use page::shape_of;
use wire::field::payload;
use wire::number::read32;

// No node, whatever the arrays hold.
fn no_node() -> Outline
    ensures { result ≡ broken_at empty_outline }
{
    Outline {
        state: DraftState::Broken,
        ..empty_outline()
    }
}

// A node of the first n pairs of a payload; none where their keys do not ascend, which is seen as they are read.
fn read_pairs(
    p: &[u8],
    n: usize,
    shape: Shape,
    link: u32,
    keys: &mut [u32; MOST_KEYS],
    pointers: &mut [u32; MOST_KEYS],
) -> Outline
    requires { (n ≤ most_keys) × (7 + 8 * n ≤ length p.now) × Arrays keys.old pointers.old }
    ensures { Redone (draft_from result keys.new pointers.new)
        (if_ascends (node shape (decode.pairs_from n p.now 7) link)) }
{
    let mut least: u64 = 0;
    for i in 0..n {
        let key = read32(p, 7 + 8 * i);
        let here = u64::from(key);
        if here < least {
            return no_node();
        }
        keys[i] = key;
        pointers[i] = read32(p, 11 + 8 * i);
        least = here + 1;
    }
    Outline {
        state: DraftState::Made,
        shape,
        first: 0,
        count: n,
        link,
    }
}

// The node of a payload of field 11; none where it is too short or too long, or its keys do not ascend.
fn node_of_payload(
    p: &[u8],
    keys: &mut [u32; MOST_KEYS],
    pointers: &mut [u32; MOST_KEYS],
) -> Outline
    requires { Arrays keys.old pointers.old }
    ensures { Redone (draft_from result keys.new pointers.new) (node_of_payload p.now) }
{
    if p.len() < 7 {
        return no_node();
    }
    let n = (p.len() - 7) / 8;
    if MOST_KEYS < n {
        return no_node();
    }
    read_pairs(p, n, shape_of(p[2]), read32(p, 3), keys, pointers)
}

// The node of a page's field 11.
fn read_node(page: &[u8], keys: &mut [u32; MOST_KEYS], pointers: &mut [u32; MOST_KEYS]) -> Outline
    requires { Arrays keys.old pointers.old }
    ensures { Redone (draft_from result keys.new pointers.new) (node_of_payload (payload_at page.now 7 0x11)) }
{
    node_of_payload(payload(page, 7, 0x11), keys, pointers)
}

// The node of a page of the pool; none behind its end.
pub fn node_page_at(
    pool: &[u8],
    page: u16,
    keys: &mut [u32; MOST_KEYS],
    pointers: &mut [u32; MOST_KEYS],
) -> Outline
    requires { Arrays keys.old pointers.old }
    ensures { Redone (draft_from result keys.new pointers.new) (node_page_at (pages_of pool.now) page) }
{
    let place = usize::from(page);
    if !has_page(pool, place) {
        return no_node();
    }
    read_node(page_part(pool, place), keys, pointers)
}
