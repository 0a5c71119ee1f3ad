// Which ids the checkpoint has a score of: one byte a mark, for the ids of one window at a time.
ghost use Rattle.std.specs.Prelude.{◌≡◌, ◌+◌, ◌*◌, ◌≤◌, ◌<◌, length};
ghost use Rattle.laws.specs.Loops.{all_from};
ghost use Rattle.flash_blocks.specs.Pages.{pages_of};
ghost use Rattle.mount_checkpoint.specs.Marks.{marked, mark_page, mark_pages, is_marked, Windowed, Covered};
ghost use Rattle.layout.specs.Layout.{page_bytes};

use flash_blocks::page::page_part;
use mount_checkpoint_pages::checkpoint_page::scores_of;
use page_read::seal::sequence;
use page_read::value::score_at;
use wire::bytes::fill;

// Marks an id, where it is in the window that begins at `start`.
fn mark(marks: &mut [u8], start: usize, id: usize)
    ensures { marks.new ≡ marked start id marks.old }
{
    if id < start {
        return;
    }
    let i = id - start;
    if i < marks.len() {
        marks[i] = 1;
    }
}

// Marks the ids on a page, where its number is not below the first.
fn mark_page(page: &[u8], marks: &mut [u8], since: u32, start: usize)
    ensures { marks.new ≡ mark_page since start page.now marks.old }
{
    if sequence(page) < since {
        return;
    }
    let s = scores_of(page);
    for i in 0..s.count {
        let v = score_at(page, s.from, i);
        mark(marks, start, v.id as usize);
    }
}

// Marks the ids on all pages from a number on.
fn mark_pages(pool: &[u8], marks: &mut [u8], pages: usize, since: u32, start: usize)
    requires { page_bytes * pages ≤ length pool.now }
    ensures { marks.new ≡ mark_pages (pages_of pool.now) pages since start
        marks.old }
{
    for page in 0..pages {
        mark_page(page_part(pool, page), marks, since, start);
    }
}

// Whether the first n marks are all set.
fn all_set(marks: &[u8], n: usize) -> bool
    requires { n ≤ length marks.now }
    ensures { result ≡ all_from (is_marked marks.now) n 0 }
{
    marks[..n].iter().all(|mark| *mark != 0)
}

// Whether each of `size` ids from `start` on has a score.
fn window(
    pool: &[u8],
    marks: &mut [u8],
    pages: usize,
    since: u32,
    start: usize,
    size: usize,
) -> bool
    requires { (page_bytes * pages ≤ length pool.now) × (size ≤ length marks.old) }
    ensures { Windowed (pages_of pool.now) pages since start size
        (length marks.old) marks.new result }
{
    fill(marks, 0);
    mark_pages(pool, marks, pages, since, start);
    all_set(marks, size)
}

// Whether each id below the node count has a score. There are never more scores than two windows of the table hold.
pub fn covers(pool: &[u8], marks: &mut [u8], pages: usize, since: u32, nodes: usize) -> bool
    requires { page_bytes * pages ≤ length pool.now }
    ensures { Covered (pages_of pool.now) pages since nodes (length marks.old)
        marks.new result }
{
    let width = marks.len();
    if nodes <= width {
        return window(pool, marks, pages, since, 0, nodes);
    }
    if !window(pool, marks, pages, since, 0, width) {
        return false;
    }
    let rest = nodes - width;
    rest <= width && window(pool, marks, pages, since, width, rest)
}
