// Whole pages, and a block erased. Here alone the number of a page becomes its place in bytes, and here alone the pool is written: every
// page through put_page, every erasure through erase_block, of prepare and of compaction too. All other code hands the pool on.
ghost use Rattle.std.specs.Prelude.{◌≡◌, ◌+◌, ◌*◌, ◌≤◌, ltb, length, set};
ghost use Rattle.laws.specs.Lay.{lay};
ghost use Rattle.flash_blocks.specs.Pages.{pages_of, page_at, copied, erased_bytes, erased, is_blank};
ghost use Rattle.layout.specs.Layout.{block_bytes, page_bytes};

use layout::{BLOCK_BYTES, PAGE_BYTES};
use wire::bytes::fill_part;

// Whether a page lies in the pool.
pub fn has_page(pool: &[u8], page: usize) -> bool
    ensures { result ≡ ltb page (length (pages_of pool.now)) }
{
    page < pool.len() / PAGE_BYTES
}

// The bytes of a page, where they lie.
pub fn page_part(pool: &[u8], page: usize) -> &[u8]
    requires { page_bytes * page + page_bytes ≤ length pool.now }
    ensures { (result.now ≡ page_at (pages_of pool.now) page) × (length result.now ≡ page_bytes) }
{
    let from = PAGE_BYTES * page;
    &pool[from..from + PAGE_BYTES]
}

// The bytes of a page, by value.
pub fn read_page(pool: &[u8], page: usize) -> [u8; PAGE_BYTES]
    requires { page_bytes * page + page_bytes ≤ length pool.now }
    ensures { result ≡ page_at (pages_of pool.now) page }
{
    let mut bytes = [255; PAGE_BYTES];
    bytes.copy_from_slice(page_part(pool, page));
    bytes
}

// Fills the part of the pool that the page writer is lent.
fn fill_page(part: &mut [u8], image: &[u8; PAGE_BYTES])
    requires { length part.old ≡ page_bytes }
    ensures { part.new ≡ image.now }
{
    part.copy_from_slice(image);
}

// Writes an image as a page of the pool.
pub fn put_page(pool: &mut [u8], page: usize, image: &[u8; PAGE_BYTES])
    requires { page_bytes * page + page_bytes ≤ length pool.old }
    ensures { (pages_of pool.new ≡ set (pages_of pool.old) page image.now)
        × (pool.new ≡ lay pool.old (page_bytes * page) image.now) }
{
    let from = PAGE_BYTES * page;
    fill_page(&mut pool[from..from + PAGE_BYTES], image);
}

// A page copied to another place.
pub fn copy_page(pool: &mut [u8], from: usize, to: usize)
    requires { (page_bytes * from + page_bytes ≤ length pool.old) × (page_bytes * to + page_bytes ≤ length pool.old) }
    ensures { pages_of pool.new ≡ copied from to (pages_of pool.old) }
{
    let bytes = read_page(pool, from);
    put_page(pool, to, &bytes);
}

// All pages of a block blank.
pub fn erase_block(pool: &mut [u8], block: usize)
    requires { block_bytes * block + block_bytes ≤ length pool.old }
    ensures { (pages_of pool.new ≡ erased block (pages_of pool.old))
        × (pool.new ≡ lay pool.old (block_bytes * block) erased_bytes) }
{
    let from = BLOCK_BYTES * block;
    fill_part(pool, from, from + BLOCK_BYTES, 255);
}

// Whether a page is blank.
pub fn is_blank(pool: &[u8], page: usize) -> bool
    requires { page_bytes * page + page_bytes ≤ length pool.now }
    ensures { result ≡ is_blank (page_at (pages_of pool.now) page) }
{
    page_part(pool, page)[0] == 255
}
