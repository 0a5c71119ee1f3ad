// Question 5 of document 01: do all pages of a pool check, each by itself and all together?
#![tactic(auto)]

pub mod answer;

ghost use Rattle.std.specs.Prelude.{◌≡◌, ◌*◌, ◌≤◌, length};
ghost use Rattle.layout.specs.Layout.{block_bytes, fewest_blocks, most_blocks, table_bytes};
ghost use Rattle.flash_blocks.specs.Pages.{pages_of};
ghost use Rattle.mount_sequences.specs.Row.{row};
ghost use Rattle.mount_survey_refines.specs.Passes.{numbers_pass};
ghost use Rattle.mount_survey.specs.Surveyed.{Ready, Surveyed};

use answer::{Survey, found};
use layout::PAGES_IN_BLOCK;
use mount_blocks::rules::all_pass;
use mount_filter::mark;
use mount_pages::collect::collect;
use mount_pages::versions::versions_are_new;
use mount_sequences::sort::{greatest, is_strict, sort};

// A block's sequence numbers, four bytes each: the spare row of the sort begins behind all of them.
const NUMBERS_BYTES: usize = 4 * PAGES_IN_BLOCK;

// Whether the sequence numbers of a row all differ, and none is the version of a log entry.
fn numbers_pass(pool: &[u8], table: &mut [u8], n: usize, blocks: usize, newest: u32) -> bool
    requires { Ready pool.now table.old n blocks newest }
    ensures { result ≡ numbers_pass blocks (pages_of pool.now) (row n 0 table.old) }
{
    sort(table, n, NUMBERS_BYTES * blocks, newest);
    if !is_strict(table, n) {
        return false;
    }
    mark(table, n, blocks);
    versions_are_new(pool, table, n, blocks, PAGES_IN_BLOCK * blocks)
}

// Surveys a pool, with a table lent for the work; none, where its pages do not all check. What the table holds afterwards is left open, and means
// nothing.
pub fn survey(pool: &[u8], scratch: &mut [u8], blocks: usize) -> Option<Survey>
    requires { (length pool.now ≡ block_bytes * blocks) × (fewest_blocks ≤ blocks) × (blocks ≤ most_blocks)
        × (length scratch.old ≡ table_bytes blocks) }
    ensures { Surveyed pool.now blocks result }
{
    let n = collect(pool, scratch, PAGES_IN_BLOCK * blocks)?;
    let newest = greatest(scratch, n);
    if !numbers_pass(pool, scratch, n, blocks, newest) || !all_pass(pool, blocks, newest) {
        return None;
    }
    Some(found(pool, blocks, newest))
}
