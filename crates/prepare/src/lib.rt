// Prepare: "it erases all, then writes from the first page of block 0: node 0 as an empty leaf (version 1, page stamp 2), a closing
// page (stamp 3)".
#![tactic(auto)]

ghost use Rattle.std.specs.Prelude.{◌≡◌, ◌*◌, ◌≤◌, length, replicate};
ghost use Rattle.layout.specs.Layout.{block_bytes};
ghost use Rattle.refusal.specs.Number.{number_of};
ghost use Rattle.page.specs.Image.{image};
ghost use Rattle.model.specs.Call.{prepare_of};
ghost use Rattle.prepare.specs.Prepared.{root_page, checkpoint_page, first_bytes, Leaves};

use account::Tariff;
use flash_blocks::page::{erase_block, put_page};
use layout::{ENTRY_BYTES, NO_LEAF, PAGE_BYTES, SCORE_BYTES};
use page_checkpoint::checkpoint_image;
use page_write::log_page::{lay_entry, log_image};
use questions::prepare::refusal;
use refusal::Refusal;

// The first page: node 0 as an empty leaf.
fn root_page() -> [u8; PAGE_BYTES]
    ensures { result ≡ image root_page }
{
    let mut buffer = [0u8; ENTRY_BYTES];
    lay_entry(&mut buffer, 0, 0, 1, 3, 0, NO_LEAF);
    log_image(2, &buffer, 1)
}

// The second: the tariff, the score 0 of node 0, and the node count 1.
fn checkpoint_page(tariff: Tariff) -> [u8; PAGE_BYTES]
    ensures { result ≡ image (checkpoint_page tariff) }
{
    let records = [0; SCORE_BYTES];
    checkpoint_image(3, Some(tariff), &records, 1, Some(1))
}

// All blocks erased, one after another.
fn erase_all(pool: &mut [u8], blocks: usize)
    requires { length pool.old ≡ block_bytes * blocks }
    ensures { pool.new ≡ replicate (length pool.old) 255 }
{
    for block in 0..blocks {
        erase_block(pool, block);
    }
}

// All blocks erased, then the two pages.
fn write_first(
    pool: &mut [u8],
    blocks: usize,
    root: &[u8; PAGE_BYTES],
    checkpoint: &[u8; PAGE_BYTES],
)
    requires { (length pool.old ≡ block_bytes * blocks) × (1 ≤ blocks) }
    ensures { pool.new ≡ first_bytes (length pool.old) root.now checkpoint.now }
{
    erase_all(pool, blocks);
    put_page(pool, 0, root);
    put_page(pool, 1, checkpoint);
}

// A pool prepared, or refused for its length or for a tariff number out of range.
pub fn prepare(pool: &mut [u8], tariff: Tariff) -> Result<(), Refusal>
    ensures { Leaves (prepare_of pool.old tariff) (number_of result) pool.new }
{
    let blocks = refusal(pool, tariff)?;
    write_first(pool, blocks, &root_page(), &checkpoint_page(tariff));
    Ok(())
}
