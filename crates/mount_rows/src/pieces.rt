// The pieces of nodes on one page: the entries of a log page, the node of a node page.
ghost use Rattle.std.specs.Prelude.{◌≡◌, ◌+◌, ◌*◌, ◌≤◌, length};
ghost use Rattle.layout.specs.Layout.{most_entries, entry_size};
ghost use Rattle.flash_rows.specs.Row.{rows_of, row_bytes};
ghost use Rattle.mount_rows.specs.Pieces.{seen_entry, seen_run, seen_node};

use super::row::see;
use account::Mode;
use layout::{ENTRY_BYTES, FIELDS_AT, MOST_ENTRIES};
use page_read::seal::sequence;
use wire::field::payload;
use wire::number::{read16, read32};

// How long a field with an entry is.
const ENTRY_FIELD: usize = 3 + ENTRY_BYTES;

// One entry of a log page.
fn see_entry(entry: &[u8], table: &mut [u8], nodes: usize, page: u16)
    requires { (length entry.now ≡ entry_size) × (row_bytes * nodes ≤ length table.old) }
    ensures { rows_of table.new ≡ seen_entry nodes page entry.now
        (rows_of table.old) }
{
    let id = read16(entry, 0) as usize;
    let version = read32(entry, 2);
    see(table, nodes, id, version, Mode::Log, page);
}

// The entries of a page, in order.
pub fn see_entries(bytes: &[u8], table: &mut [u8], nodes: usize, page: u16)
    requires { row_bytes * nodes ≤ length table.old }
    ensures { rows_of table.new ≡ seen_run nodes page most_entries bytes.now 7
        (rows_of table.old) }
{
    for i in 0..MOST_ENTRIES {
        let entry = payload(bytes, FIELDS_AT + ENTRY_FIELD * i, 0x12);
        if entry.len() != ENTRY_BYTES {
            return;
        }
        see_entry(entry, table, nodes, page);
    }
}

// The node of a page, whose version is the page's sequence number.
pub fn see_node(bytes: &[u8], table: &mut [u8], nodes: usize, page: u16)
    requires { row_bytes * nodes ≤ length table.old }
    ensures { rows_of table.new ≡ seen_node nodes page bytes.now
        (rows_of table.old) }
{
    let p = payload(bytes, FIELDS_AT, 0x11);
    if p.len() < 7 {
        return;
    }
    let id = read16(p, 0) as usize;
    let version = sequence(bytes);
    see(table, nodes, id, version, Mode::Disk, page);
}
