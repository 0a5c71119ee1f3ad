// A node's row, as the pages that hold pieces of the node are met one by one.
ghost use Rattle.std.specs.Prelude.{◌≡◌, ◌+◌, ◌*◌, ◌≤◌, length, set, get_or};
ghost use Rattle.flash_rows.specs.Row.{rows_of, no_row, row_bytes};
ghost use Rattle.mount_rows.specs.Seen as def;
ghost use Rattle.mount_rows.specs.Seen.{one_more, seen_at};

use account::Mode;
use flash_rows::Row;

// The row with one page more; where it has three, with the mark of too many.
#[tactic(auto, unfolding(crate::specs::Seen::one_more, crate::specs::Seen::crowded))]
fn one_more(row: Row, page: u16) -> Row
    ensures { result ≡ one_more page row }
{
    if row.pages < 3 {
        row.note(page)
    } else {
        Row { pages: 4, ..row }
    }
}

// Whether a piece of a version lies on a page that the row lacks.
#[tactic(auto, unfolding(crate::specs::Seen::lacks))]
fn lacks(row: Row, version: u32, page: u16) -> bool
    ensures { result ≡ def.lacks version page row }
{
    row.version == version && !row.names(page)
}

// The version of a node's row.
fn version_of(table: &[u8], id: usize) -> u32
    requires { row_bytes * id + row_bytes ≤ length table.now }
    ensures { result ≡ (get_or (rows_of table.now) id no_row).version }
{
    flash_rows::read_row(table, id).version
}

// The row of a node after a piece of a version was met on a page. Most pieces in an aged pool are of older versions, and of these the row's other fields
// are not read.
fn see_row(table: &mut [u8], id: usize, version: u32, mode: Mode, page: u16)
    requires { row_bytes * id + row_bytes ≤ length table.old }
    ensures { rows_of table.new ≡ set (rows_of table.old) id
        (def.seen version mode page (get_or (rows_of table.old) id no_row)) }
{
    if version < version_of(table, id) {
        return;
    }
    let row = flash_rows::read_row(table, id);
    if row.version < version {
        flash_rows::write_row(table, id, row.fresh(version, mode).note(page));
        return;
    }
    if lacks(row, version, page) {
        flash_rows::write_row(table, id, one_more(row, page));
    }
}

// Notes a piece of a node that exists; ids at or above the count mean nothing.
pub fn see(table: &mut [u8], nodes: usize, id: usize, version: u32, mode: Mode, page: u16)
    requires { row_bytes * nodes ≤ length table.old }
    ensures { rows_of table.new ≡ seen_at nodes id version mode page (rows_of table.old) }
{
    if id < nodes {
        see_row(table, id, version, mode, page);
    }
}
