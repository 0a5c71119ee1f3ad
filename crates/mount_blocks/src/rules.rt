// All blocks together, and the block of a number.
ghost use Rattle.std.specs.Prelude.{◌≡◌, ◌*◌, ◌≤◌, length};
ghost use Rattle.laws.specs.Loops.{all_from};
ghost use Rattle.flash_blocks.specs.Pages.{pages_of};
ghost use Rattle.mount_blocks.specs.Rules.{block_passes, blocks_pass, block_of};
ghost use Rattle.layout.specs.Layout.{block_bytes};

use super::block::{holds, passes};
use flash_blocks::blank::count_blank;

// Whether each block keeps its own rules.
fn each_passes(pool: &[u8], blocks: usize, newest: u32) -> bool
    requires { block_bytes * blocks ≤ length pool.now }
    ensures { result ≡ all_from (block_passes (pages_of pool.now) newest) blocks 0 }
{
    (0..blocks).all(|block| passes(pool, block, newest))
}

// Whether the blocks keep all rules.
#[tactic(auto, unfolding(crate::specs::Rules::blocks_pass))]
pub fn all_pass(pool: &[u8], blocks: usize, newest: u32) -> bool
    requires { block_bytes * blocks ≤ length pool.now }
    ensures { result ≡ blocks_pass blocks (pages_of pool.now) newest }
{
    each_passes(pool, blocks, newest) && 1 <= count_blank(pool, blocks)
}

// The block of a number, or the number of blocks, as the definition has it: no caller asks which of the two.
pub fn block_of(pool: &[u8], blocks: usize, number: u32) -> usize
    requires { block_bytes * blocks ≤ length pool.now }
    ensures { (result ≡ block_of blocks (pages_of pool.now) number) × (result ≤ blocks) }
{
    (0..blocks)
        .find(|&block| holds(pool, block, number))
        .unwrap_or(blocks)
}
