// Each page judged once, and the sequence numbers of the written ones.
ghost use Rattle.std.specs.Prelude.{◌≡◌, [], ◌∷◌, ◌++◌, ◌+◌, ◌*◌, ◌≤◌, length};
ghost use Rattle.flash_blocks.specs.Pages.{pages_of};
ghost use Rattle.mount_sequences.specs.Row.{row};
ghost use Rattle.mount_pages.specs.Collect.{Collecting};
ghost use Rattle.layout.specs.Layout.{page_bytes};

use flash_blocks::page::page_part;
use page_read::view::{PageView, view_page};
use wire::number::write32;

// A number more, behind a row of so many.
fn add_number(table: &mut [u8], count: usize, number: u32)
    requires { 4 * count + 4 ≤ length table.old }
    ensures { row (count + 1) 0 table.new ≡ row count 0 table.old ++ number ∷ [] }
{
    write32(table, 4 * count, number);
}

// Judges so many pages, and lays the sequence numbers of the written ones in a row; how many these are, or none where a page is bad. Then the row is
// left open, as the table behind it always is.
pub fn collect(pool: &[u8], table: &mut [u8], pages: usize) -> Option<usize>
    requires { (page_bytes * pages ≤ length pool.now) × (4 * pages ≤ length table.old) }
    ensures { Collecting (pages_of pool.now) pages table.new result }
{
    let mut count = 0;
    for page in 0..pages {
        let sequence = match view_page(page_part(pool, page)) {
            PageView::Blank => continue,
            PageView::Bad => return None,
            PageView::Log { sequence, .. }
            | PageView::NodePage { sequence, .. }
            | PageView::Checkpoint { sequence, .. } => sequence,
        };
        add_number(table, count, sequence);
        count += 1;
    }
    Some(count)
}
