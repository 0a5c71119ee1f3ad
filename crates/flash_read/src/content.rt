// The content of a node.
ghost use Rattle.std.specs.Prelude.{◌≡◌, ◌+◌, ◌*◌, ◌≤◌, length};
ghost use Rattle.flash_rows.specs.Row.{row_bytes};
ghost use Rattle.flash_rows.specs.Worktable.{rows_at, buffer_bytes, table_from};
ghost use Rattle.flash_blocks.specs.Pages.{pages_of};
ghost use Rattle.node.specs.Drafts.{Redone};
ghost use Rattle.node_replay.specs.Front.{Arrays};
ghost use Rattle.node_replay.specs.Outline.{draft_from, draft_in, HeldIn, RedoneIn};
ghost use Rattle.flash_read.specs.Content as def;
ghost use Rattle.flash_read.specs.Content.{redo_pages, log_content, content_by};
ghost use Rattle.layout.specs.Layout.{most_entries};

use super::node_page::node_page_at;
use super::replay::redo_entries;
use super::slot::{in_order, redo_at, redo_each, slot_at};
use account::Mode;
use flash_allocate::state::State;
use flash_rows::Row;
use flash_rows::table::{buffer_part, row_at};
use layout::MOST_KEYS;
use node::DraftValue;
use node_replay::front::settle;
use node_replay::outline::{Outline, draft_from, empty_outline};

// The entries of a version on the pages that a row names, by sequence number.
fn redo_pages(
    pool: &[u8],
    row: Row,
    n: usize,
    keys: &mut [u32; MOST_KEYS],
    pointers: &mut [u32; MOST_KEYS],
    outline: Outline,
) -> Outline
    requires { HeldIn outline keys.old pointers.old }
    ensures { RedoneIn result keys.new pointers.new
        (redo_pages (pages_of pool.now) row n (draft_in outline keys.old pointers.old)) }
{
    match row.pages {
        0 => outline,
        1 => redo_at(pool, row.first, n, row.version, keys, pointers, outline),
        2 => {
            let (a, b) = in_order(slot_at(pool, row.first), slot_at(pool, row.second));
            redo_each(pool, &[a, b], n, row.version, keys, pointers, outline)
        }
        _ => {
            let (a, rest) = in_order(slot_at(pool, row.first), slot_at(pool, row.second));
            let (b, c) = in_order(rest, slot_at(pool, row.third));
            let (a, b) = in_order(a, b);
            redo_each(pool, &[a, b, c], n, row.version, keys, pointers, outline)
        }
    }
}

// The outline of node n, whose row this is: its entries on pages, then those in the buffer. Keys and pointers end at
// the front, where a draft has them, wherever the replay left its first key.
fn log_outline(
    pool: &[u8],
    buffer: &[u8],
    entries: usize,
    row: Row,
    n: usize,
    keys: &mut [u32; MOST_KEYS],
    pointers: &mut [u32; MOST_KEYS],
) -> Outline
    requires { (entries ≤ most_entries) × (length buffer.now ≡ buffer_bytes) × Arrays keys.old pointers.old }
    ensures { Redone (draft_from result keys.new pointers.new)
        (log_content (pages_of pool.now) buffer.now entries row n) }
{
    let written = redo_pages(pool, row, n, keys, pointers, empty_outline());
    let all = redo_entries(buffer, entries, n, row.version, keys, pointers, written);
    settle(keys, pointers, all.first, all.count);
    all
}

// The outline of node n by the mode of its row; keys and pointers lie at the front.
fn outline_by(
    pool: &[u8],
    buffer: &[u8],
    entries: usize,
    row: Row,
    n: usize,
    keys: &mut [u32; MOST_KEYS],
    pointers: &mut [u32; MOST_KEYS],
) -> Outline
    requires { (entries ≤ most_entries) × (length buffer.now ≡ buffer_bytes) × Arrays keys.old pointers.old }
    ensures { Redone (draft_from result keys.new pointers.new)
        (content_by (pages_of pool.now) buffer.now entries row n) }
{
    match row.mode {
        Mode::Log => log_outline(pool, buffer, entries, row, n, keys, pointers),
        Mode::Disk => node_page_at(pool, row.first, keys, pointers),
    }
}

// The content of node n, whose row this is. Both modes fill the same two arrays, and the draft is put together here
// alone: so its 200 bytes are not copied at each return on the way.
fn content_by(pool: &[u8], buffer: &[u8], entries: usize, row: Row, n: usize) -> DraftValue
    requires { (entries ≤ most_entries) × (length buffer.now ≡ buffer_bytes) }
    ensures { Redone result (content_by (pages_of pool.now) buffer.now entries row n) }
{
    let mut keys = [0; MOST_KEYS];
    let mut pointers = [0; MOST_KEYS];
    let outline = outline_by(pool, buffer, entries, row, n, &mut keys, &mut pointers);
    draft_from(outline, keys, pointers)
}

// The content of node n.
pub fn content(pool: &[u8], table: &[u8], state: State, n: usize) -> DraftValue
    requires { (state.entries ≤ most_entries) × (rows_at + row_bytes * n + row_bytes ≤ length table.now) }
    ensures { Redone result (def.content (pages_of pool.now) (table_from table.now) state n) }
{
    content_by(pool, buffer_part(table), state.entries, row_at(table, n), n)
}
