// Node pages, from a node's keys and the pointers beside them.
ghost use Rattle.std.specs.Prelude.{◌≡◌, ◌+◌, ◌*◌, ◌≤◌, ◌<◌, length};
ghost use Rattle.laws.specs.Lay.{lay};
ghost use Rattle.layout.specs.Layout.{page_bytes, most_keys};
ghost use Rattle.page.specs.Image.{pairs_bytes, image};
ghost use Rattle.page_write.specs.Laid.{summed};
ghost use Rattle.page_write.specs.Pages.{first_pairs, body_of, node_page};
ghost use Rattle.page_write.specs.Parts.{node_head};

use super::frame::{lay_sequence, lay_sums};
use layout::{FIELDS_AT, PAGE_BYTES};
use node::Shape;
use page::shape_number;
use wire::bytes::lay_byte;
use wire::field::lay_head;
use wire::number::{write16, write32};

// Lays field 11 up to its pairs, of which there are n.
fn lay_node_head(p: &mut [u8], at: usize, id: u32, shape: Shape, link: u32, n: usize)
    requires { (at + 10 ≤ length p.old) × ((id < 65536) × (n ≤ most_keys)) }
    ensures { p.new ≡ lay p.old at (node_head id shape link n) }
{
    lay_head(p, at, 0x11, (7 + 8 * n) as u32);
    write16(p, at + 3, id);
    lay_byte(p, at + 5, shape_number(shape));
    write32(p, at + 6, link);
}

// Lays the first n keys, each with its pointer.
fn lay_pairs(p: &mut [u8], at: usize, keys: &[u32], pointers: &[u32], n: usize)
    requires { (at + 8 * n ≤ length p.old) × ((n ≤ length keys.now) × (n ≤ length pointers.now)) }
    ensures { p.new ≡ lay p.old at
        (pairs_bytes (first_pairs n keys.now pointers.now 0)) }
{
    for i in 0..n {
        write32(p, at + 8 * i, keys[i]);
        write32(p, at + 8 * i + 4, pointers[i]);
    }
}

// Lays a node page, but for the FF behind the sums.
fn lay_node(
    p: &mut [u8],
    sequence: u32,
    id: u32,
    shape: Shape,
    keys: &[u32],
    pointers: &[u32],
    n: usize,
    link: u32,
)
    requires p_len { (length p.old ≡ page_bytes) × ((id < 65536) × (n ≤ most_keys)) }
    requires n_in_bounds { (n ≤ length keys.now) × (n ≤ length pointers.now) }
    ensures { p.new ≡ lay p.old 0
        (summed (body_of (node_page sequence id shape n keys.now pointers.now link))) }
{
    lay_sequence(p, sequence);
    lay_node_head(p, FIELDS_AT, id, shape, link, n);
    lay_pairs(p, 17, keys, pointers, n);
    lay_sums(p, 17 + 8 * n);
}

// The image of a node page of the first n keys, each with its pointer, and the link. In a frame of its own, since the longest chain of calls
// comes by here.
#[inline(never)]
pub fn node_image(
    sequence: u32,
    id: u32,
    shape: Shape,
    keys: &[u32],
    pointers: &[u32],
    n: usize,
    link: u32,
) -> [u8; PAGE_BYTES]
    requires id_bound { (id < 65536) × (n ≤ most_keys) }
    requires n_in_bounds { (n ≤ length keys.now) × (n ≤ length pointers.now) }
    ensures { result ≡ image (node_page sequence id shape n keys.now pointers.now link) }
{
    let mut p = [255; PAGE_BYTES];
    lay_node(&mut p, sequence, id, shape, keys, pointers, n, link);
    p
}
