// What a survey answers.
ghost use Rattle.std.specs.Prelude.{◌≡◌, ◌*◌, ◌≤◌, length};
ghost use Rattle.layout.specs.Layout.{block_bytes};
ghost use Rattle.flash_blocks.specs.Pages.{pages_of};
ghost use Rattle.mount_survey_refines.specs.Passes.{fill_in};
ghost use Rattle.mount_survey.specs.Surveyed as def;

use mount_blocks::block::fill_of;
use mount_blocks::rules::block_of;

// What is found of a pool whose pages check: the newest sequence number, the block of that page, and how many pages are written there.
#[derive(Clone, Copy, Debug, PartialEq, Eq)]
pub struct Survey {
    pub newest: u32,
    pub current: usize,
    pub fill: usize,
}

// How far a block is filled; a block behind the last has no page.
#[tactic(auto, unfolding(mount_survey_refines::specs::Passes::fill_in))]
fn fill_in(pool: &[u8], blocks: usize, block: usize) -> usize
    requires { block_bytes * blocks ≤ length pool.now }
    ensures { result ≡ fill_in blocks (pages_of pool.now) block }
{
    if block < blocks {
        fill_of(pool, block)
    } else {
        0
    }
}

// The answer, by the newest sequence number.
#[tactic(auto, unfolding(crate::specs::Surveyed::found))]
pub fn found(pool: &[u8], blocks: usize, newest: u32) -> Survey
    requires { block_bytes * blocks ≤ length pool.now }
    ensures { result ≡ def.found blocks (pages_of pool.now) newest }
{
    let current = block_of(pool, blocks, newest);
    Survey {
        newest,
        current,
        fill: fill_in(pool, blocks, current),
    }
}
