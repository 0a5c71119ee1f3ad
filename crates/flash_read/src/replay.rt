// The entries of a page and of the buffer, replayed in place for one node and one version.
ghost use Rattle.std.specs.Prelude.{◌≡◌, ◌+◌, ◌*◌, ◌≤◌, length};
ghost use Rattle.layout.specs.Layout.{most_entries, entry_size};
ghost use Rattle.node.specs.Replay.{redo};
ghost use Rattle.node_replay.specs.Outline.{draft_in, HeldIn, RedoneIn};
ghost use Rattle.wire.specs.Field.{payload_at};
ghost use Rattle.page.specs.Decode.{entry_of};
ghost use Rattle.flash_read.specs.Replay.{is_own, entry_in, stride_of, reach, redo_from, redo_run, redo_buffer};

use layout::{ENTRY_BYTES, MOST_ENTRIES, MOST_KEYS};
use node::Shape;
use node_replay::outline::Outline;
use node_replay::{redo_delete, redo_link, redo_put};
use wire::number::{read16, read32};

// Whether an entry is the node's and of the version; most entries that are looked at have another id.
#[tactic(auto, unfolding(page::specs::Decode::entry_of))]
fn is_own(entry: &[u8], id: usize, version: u32) -> bool
    requires { length entry.now ≡ entry_size }
    ensures { result ≡ is_own id version (entry_of entry.now) }
{
    read16(entry, 0) as usize == id && read32(entry, 2) == version
}

// The change that an entry says, by its kind.
fn redo_entry(
    entry: &[u8],
    keys: &mut [u32; MOST_KEYS],
    pointers: &mut [u32; MOST_KEYS],
    outline: Outline,
) -> Outline
    requires { (length entry.now ≡ entry_size) × (HeldIn outline keys.old pointers.old) }
    ensures { RedoneIn result keys.new pointers.new
        (redo (draft_in outline keys.old pointers.old) (entry_of entry.now).change) }
{
    let key = read32(entry, 7);
    let pointer = read32(entry, 11);
    match entry[6] {
        1 => redo_put(keys, pointers, outline, key, pointer),
        2 => redo_delete(keys, pointers, outline, key),
        3 => redo_link(outline, Shape::Leaf, pointer),
        _ => redo_link(outline, Shape::Branch, pointer),
    }
}

// The entry on a page: the payload of the field 12 at a place. Its one length and the room for it spare the tests
// that a field has in general.
fn framed_at(bytes: &[u8], at: usize) -> &[u8]
    requires { at + 18 ≤ length bytes.now }
    ensures { result.now ≡ payload_at bytes.now at 0x12 }
{
    if bytes[at] != 0x12 || read16(bytes, at + 1) as usize != ENTRY_BYTES {
        return &[];
    }
    &bytes[at + 3..at + 18]
}

// The bytes of an entry: on a page the payload of the field 12 at a place, in the buffer the fifteen bytes there.
// Where there is none it is empty, as the definition says it: the loop tests the length in any case.
fn entry_at(bytes: &[u8], at: usize, framed: bool) -> &[u8]
    requires { at + stride_of framed ≤ length bytes.now }
    ensures { result.now ≡ entry_in framed bytes.now at }
{
    if framed {
        framed_at(bytes, at)
    } else {
        &bytes[at..at + ENTRY_BYTES]
    }
}

// How far one entry lies behind another: on a page a field's head is between them.
fn stride(framed: bool) -> usize
    ensures { result ≡ stride_of framed }
{
    if framed { 3 + ENTRY_BYTES } else { ENTRY_BYTES }
}

// At most so many entries from a place on, in order, with room for them all: so no test of the length stands in the
// loop. It is the one loop over entries, so that the compiler keeps the outline in registers: so `framed` is a
// switch, and no const parameter, which would make two of it.
fn redo_run(
    bytes: &[u8],
    at: usize,
    most: usize,
    framed: bool,
    id: usize,
    version: u32,
    keys: &mut [u32; MOST_KEYS],
    pointers: &mut [u32; MOST_KEYS],
    outline: Outline,
) -> Outline
    requires { (at + reach framed most ≤ length bytes.now) × (HeldIn outline keys.old pointers.old) }
    ensures { RedoneIn result keys.new pointers.new
        (redo_from framed id version most bytes.now at (draft_in outline keys.old pointers.old)) }
{
    let step = stride(framed);
    let mut r = outline;
    let mut place = at;
    for _ in 0..most {
        let entry = entry_at(bytes, place, framed);
        if entry.len() != ENTRY_BYTES {
            return r;
        }
        place += step;
        if is_own(entry, id, version) {
            r = redo_entry(entry, keys, pointers, r);
        }
    }
    r
}

// The entries of a log page, in order.
pub fn redo_page(
    page: &[u8],
    id: usize,
    version: u32,
    keys: &mut [u32; MOST_KEYS],
    pointers: &mut [u32; MOST_KEYS],
    outline: Outline,
) -> Outline
    requires { (7 + 18 * most_entries ≤ length page.now) × (HeldIn outline keys.old pointers.old) }
    ensures { RedoneIn result keys.new pointers.new
        (redo_run id version most_entries page.now 7 (draft_in outline keys.old pointers.old)) }
{
    redo_run(
        page,
        7,
        MOST_ENTRIES,
        true,
        id,
        version,
        keys,
        pointers,
        outline,
    )
}

// The first n entries of some bytes, in order.
pub fn redo_entries(
    buffer: &[u8],
    n: usize,
    id: usize,
    version: u32,
    keys: &mut [u32; MOST_KEYS],
    pointers: &mut [u32; MOST_KEYS],
    outline: Outline,
) -> Outline
    requires { (n ≤ most_entries) × (entry_size * n ≤ length buffer.now) × (HeldIn outline keys.old pointers.old) }
    ensures { RedoneIn result keys.new pointers.new
        (redo_buffer id version buffer.now n (draft_in outline keys.old pointers.old)) }
{
    redo_run(buffer, 0, n, false, id, version, keys, pointers, outline)
}
