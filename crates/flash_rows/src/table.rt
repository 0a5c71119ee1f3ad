// The work table while a batch runs, by the plan of specs/Worktable.antt: the log buffer, the rows, and what is free.
ghost use Rattle.std.specs.Prelude.{◌≡◌, ◌+◌, ◌*◌, ◌≤◌, length, get_or};
ghost use Rattle.flash_rows.specs.Row.{no_row, row_bytes};
ghost use Rattle.flash_rows.specs.Worktable.{rows_at, buffer_bytes, buffer_of, rows_in, table_from, with_row};

use super::Row;
use layout::BUFFER_BYTES;
use wire::record::{read, write};

pub const ROWS_AT: usize = 416;

// The log buffer, where it lies.
pub fn buffer_part(table: &[u8]) -> &[u8]
    requires { rows_at ≤ length table.now }
    ensures { (result.now ≡ buffer_of table.now) × (length result.now ≡ buffer_bytes) }
{
    &table[..BUFFER_BYTES]
}

// The row of a node, or of a checkpoint page being written.
pub fn row_at(table: &[u8], n: usize) -> Row
    requires { rows_at + row_bytes * n + row_bytes ≤ length table.now }
    ensures { result ≡ get_or (rows_in table.now) n no_row }
{
    read(&table[ROWS_AT..], n)
}

// The row laid in its place.
pub fn put_row(table: &mut [u8], n: usize, r: Row)
    requires { rows_at + row_bytes * n + row_bytes ≤ length table.old }
    ensures { table_from table.new ≡ with_row n r (table_from table.old) }
{
    write(&mut table[ROWS_AT..], n, r);
}
