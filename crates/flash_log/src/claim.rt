// The rows of the entries that a log page holds now.
ghost use Rattle.std.specs.Prelude.{◌≡◌, ◌+◌, ◌*◌, ◌≤◌, ◌<◌, length};
ghost use Rattle.flash_rows.specs.Row.{row_bytes};
ghost use Rattle.flash_rows.specs.Worktable.{rows_at, rows_in, table_from, with_rows};
ghost use Rattle.flash_rows.specs.Step.{settled};
ghost use Rattle.flash_log.specs.Claim.{claim_one, claimed};
ghost use Rattle.layout.specs.Layout.{most_entries};

use flash_rows::Row;
use flash_rows::table::{buffer_part, put_row, row_at};
use layout::ENTRY_BYTES;
use wire::number::{read16, read32};

// Stores what a claim made of a row.
fn store_claim(table: &mut [u8], n: usize, claim: Option<Row>)
    requires { rows_at + row_bytes * n + row_bytes ≤ length table.old }
    ensures { table_from table.new
        ≡ with_rows (settled claim n (rows_in table.old)) (table_from table.old) }
{
    if let Some(row) = claim {
        put_row(table, n, row);
    }
}

// The row of entry k claims the page, where its node exists.
fn claim_entry(table: &mut [u8], nodes: usize, page: u16, k: usize)
    requires { (k < most_entries) × (rows_at + row_bytes * nodes ≤ length table.old) }
    ensures { table_from table.new ≡ claim_one nodes page k (table_from table.old) }
{
    let buffer = buffer_part(table);
    let id = read16(buffer, ENTRY_BYTES * k) as usize;
    let version = read32(buffer, ENTRY_BYTES * k + 2);
    if id < nodes {
        let row = row_at(table, id);
        store_claim(table, id, row.claim(version, page));
    }
}

// The rows of the first n entries claim the page.
pub fn claim_entries(table: &mut [u8], n: usize, nodes: usize, page: u16)
    requires { (n ≤ most_entries) × (rows_at + row_bytes * nodes ≤ length table.old) }
    ensures { table_from table.new ≡ claimed nodes page n (table_from table.old) }
{
    for k in 0..n {
        claim_entry(table, nodes, page, k);
    }
}
