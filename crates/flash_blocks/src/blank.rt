// Blank blocks: how many there are, and the next one.
ghost use Rattle.std.specs.Prelude.{◌≡◌, ◌+◌, ◌*◌, ◌≤◌, ◌<◌, length};
ghost use Rattle.flash_blocks.specs.Pages.{pages_of};
ghost use Rattle.flash_blocks.specs.Blank.{blank_block, blank_blocks, blank_from, next_blank};
ghost use Rattle.layout.specs.Layout.{block_bytes};

use super::page::is_blank;
use layout::PAGES_IN_BLOCK;

// Whether a block is blank.
#[tactic(auto, unfolding(crate::specs::Blank::blank_block))]
pub fn is_blank_block(pool: &[u8], block: usize) -> bool
    requires { block_bytes * block + block_bytes ≤ length pool.now }
    ensures { result ≡ blank_block (pages_of pool.now) block }
{
    is_blank(pool, PAGES_IN_BLOCK * block)
}

// How many of the blocks are blank.
pub fn count_blank(pool: &[u8], blocks: usize) -> usize
    requires { block_bytes * blocks ≤ length pool.now }
    ensures { result ≡ blank_blocks blocks (pages_of pool.now) }
{
    let mut n = 0;
    for block in 0..blocks {
        n += usize::from(is_blank_block(pool, block));
    }
    n
}

// The first blank block at or above one, or the number of blocks.
fn blank_from(pool: &[u8], blocks: usize, from: usize) -> usize
    requires { (from ≤ blocks) × (block_bytes * blocks ≤ length pool.now) }
    ensures { (result ≡ blank_from blocks from (pages_of pool.now)) × (result ≤ blocks) }
{
    // A loop: `(from..blocks).find(..)` left the goal open which number it is that `find` gives.
    for block in from..blocks {
        if is_blank_block(pool, block) {
            return block;
        }
    }
    blocks
}

// The next blank block, upwards from the current one and round.
pub fn next_blank(pool: &[u8], blocks: usize, current: usize) -> usize
    requires { (current < blocks) × (block_bytes * blocks ≤ length pool.now) }
    ensures { (result ≡ next_blank blocks current (pages_of pool.now)) × (result < blocks) }
{
    let above = blank_from(pool, blocks, current + 1);
    if above < blocks {
        return above;
    }
    let lowest = blank_from(pool, blocks, 0);
    if lowest < blocks { lowest } else { 0 }
}
