// What the pages of the checkpoint add up to.
ghost use Rattle.std.specs.Prelude.{◌+◌, ◌*◌, ◌≤◌, ◌<◌, length};
ghost use Rattle.layout.specs.Layout.{most_blocks, pages_in_block, page_bytes};
ghost use Rattle.flash_blocks.specs.Pages.{pages_of};
ghost use Rattle.mount_checkpoint_pages.specs.Totals.{Few, Added, Summed};

use super::checkpoint_page::{checkpoint_page_of, fits};
use flash_blocks::page::page_part;
use page_read::seal::sequence;

// Over some pages: how many do not fit, the scores on them, and the node counts.
#[derive(Clone, Copy, Debug, PartialEq, Eq)]
pub struct Totals {
    pub misfits: usize,
    pub scores: usize,
    pub nodes: u32,
}

// The totals with one page more, where its sequence number is not below the first.
fn add_page(page: &[u8], since: u32, newest: u32, t: Totals) -> Totals
    requires { (7 < length page.now) × (Few 2047 t) }
    ensures { Added since newest page.now t result }
{
    if sequence(page) < since {
        return t;
    }
    let s = checkpoint_page_of(page);
    Totals {
        misfits: t.misfits + usize::from(!fits(page, newest, s.nodes.is_some())),
        scores: t.scores + s.scores,
        nodes: t.nodes + s.nodes.unwrap_or(0),
    }
}

// The totals over all pages.
pub fn sum_pages(pool: &[u8], pages: usize, since: u32, newest: u32) -> Totals
    requires { (pages ≤ pages_in_block * most_blocks) × (page_bytes * pages ≤ length pool.now) }
    ensures { Summed (pages_of pool.now) pages since newest result }
{
    let mut t = Totals {
        misfits: 0,
        scores: 0,
        nodes: 0,
    };
    for page in 0..pages {
        t = add_page(page_part(pool, page), since, newest, t);
    }
    t
}
