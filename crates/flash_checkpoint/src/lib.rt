// The checkpoint at the end of a batch: the buffer's page if it is not empty, then the tariff, the scores and the node count.
#![tactic(auto)]

ghost use Rattle.std.specs.Prelude.{◌≡◌, ◌+◌, ◌*◌, ◌≤◌, ◌<◌, length, set, replicate};
ghost use Rattle.laws.specs.Lay.{lay};
ghost use Rattle.layout.specs.Layout.{node_limit, pages_in_block};
ghost use Rattle.flash_rows.specs.Row.{row_bytes};
ghost use Rattle.flash_rows.specs.Worktable.{rows_at, rows_in, table_from, with_row};
ghost use Rattle.flash_allocate.specs.World.{Kept};
ghost use Rattle.flash_allocate.specs.Flash.{world_of, Steps};
ghost use Rattle.flash_checkpoint.specs.Scores.{scores_of, scores_bytes};
ghost use Rattle.flash_checkpoint.specs.CheckpointPages as def;
ghost use Rattle.flash_checkpoint.specs.CheckpointPages.{scores_before, ScoresOfPage, page_count, checkpoint_image, checkpoint_row};
ghost use Rattle.flash_checkpoint.specs.CheckpointPages.{write_checkpoint_page, Closing, CheckpointPageWritten, Ended};

use account::{Mode, Tariff};
use flash_allocate::allocate::allocate;
use flash_allocate::flash::Flash;
use flash_allocate::state::{count_page, next_sequence};
use flash_blocks::page::put_page;
use flash_log::flush::flush;
use flash_rows::no_row;
use flash_rows::table::{put_row, row_at};
use layout::{
    FIRST_SCORES, OTHER_SCORES, PAGE_BYTES, PAGES_IN_BLOCK, SCORE_BYTES, SCORES_LESS,
    SCORES_ROUND_UP,
};
use page_checkpoint::{checkpoint_image, lay_score};

// The node whose score is the first of checkpoint page k: 50 scores stand on the first, 54 on each other.
fn scores_before(k: usize) -> usize
    requires { k ≤ 128 }
    ensures { result ≡ scores_before k }
{
    (OTHER_SCORES * k).saturating_sub(SCORES_LESS)
}

// How many scores stand on checkpoint page k.
fn scores_on(k: usize, nodes: usize) -> usize
    requires { (k ≤ 128) × (scores_before k ≤ nodes) }
    ensures { ScoresOfPage k nodes result }
{
    let end = nodes.min(OTHER_SCORES * k + FIRST_SCORES);
    end - scores_before(k)
}

// How many checkpoint pages hold the scores of so many nodes.
fn page_count(nodes: usize) -> usize
    requires { nodes ≤ 4096 }
    ensures { result ≡ page_count nodes }
{
    (nodes + SCORES_ROUND_UP) / OTHER_SCORES
}

// The records of n scores from a node on.
fn score_records(table: &[u8], from: usize, n: usize) -> [u8; SCORE_BYTES * OTHER_SCORES]
    requires { (n ≤ 54) × (from + n ≤ 4096) × (rows_at + row_bytes * (from + n) ≤ length table.now) }
    ensures { result ≡ lay (replicate 324 0) 0 (scores_bytes (scores_of (rows_in table.now) from n)) }
{
    let mut records = [0u8; SCORE_BYTES * OTHER_SCORES];
    for i in 0..n {
        let row = row_at(table, from + i);
        lay_score(&mut records, SCORE_BYTES * i, (from + i) as u32, row.score);
    }
    records
}

// The image of checkpoint page k.
fn page_image(table: &[u8], number: u32, tariff: Tariff, k: usize, nodes: usize) -> [u8; PAGE_BYTES]
    requires rows { rows_at + row_bytes * nodes ≤ length table.now }
    requires few { nodes ≤ 4096 }
    requires needed { k < page_count nodes }
    ensures { result ≡ checkpoint_image number tariff k nodes (rows_in table.now) }
{
    let from = scores_before(k);
    let n = scores_on(k, nodes);
    let records = score_records(table, from, n);
    let front = (k == 0).then_some(tariff);
    let end = (k + 1 == page_count(nodes)).then_some(nodes as u32);
    checkpoint_image(number, front, &records, n, end)
}

// The row of a checkpoint page, behind the nodes' rows.
#[tactic(auto, unfolding(crate::specs::CheckpointPages::checkpoint_row))]
fn store_checkpoint_page(table: &mut [u8], n: usize, number: u32, page: u16)
    requires { rows_at + row_bytes * n + row_bytes ≤ length table.old }
    ensures { table_from table.new ≡ with_row n (checkpoint_row number page) (table_from table.old) }
{
    let row = no_row().fresh(number, Mode::Disk).note(page);
    put_row(table, n, row);
}

// Checkpoint page k as the next page, in a block that has room.
fn write_checkpoint_page(flash: &mut Flash, tariff: Tariff, k: usize)
    requires closing { Closing k flash.old.state }
    requires room { flash.old.state.fill < pages_in_block }
    ensures { Steps CheckpointPageWritten flash.old flash.new (write_checkpoint_page tariff k (world_of flash.old)) }
{
    let state = flash.state;
    let page = PAGES_IN_BLOCK * state.current + state.fill;
    let number = next_sequence(state.last);
    let image = page_image(flash.table(), number, tariff, k, state.nodes);
    put_page(flash.pool, page, &image);
    store_checkpoint_page(
        flash.table,
        state.nodes + state.checkpoint,
        number,
        page as u16,
    );
    flash.state = count_page(state, number);
}

// A place, then checkpoint page k there.
fn checkpoint_page(flash: &mut Flash, tariff: Tariff, k: usize)
    requires { Closing k flash.old.state }
    ensures { Steps CheckpointPageWritten flash.old flash.new (def.checkpoint_page tariff k (world_of flash.old)) }
{
    allocate(flash);
    if flash.state.fill < PAGES_IN_BLOCK {
        write_checkpoint_page(flash, tariff, k);
    }
}

// The buffer written out where it is not empty.
fn drain(flash: &mut Flash)
    ensures { Steps Kept flash.old flash.new (def.drain (world_of flash.old)) }
{
    if flash.state.entries != 0 {
        flush(flash);
    }
}

// All checkpoint pages, one after another.
fn checkpoint_pages(flash: &mut Flash, tariff: Tariff)
    requires limit { flash.old.state.nodes ≤ node_limit flash.old.state.blocks }
    requires begun { flash.old.state.checkpoint ≡ 0 }
    ensures { Steps Ended flash.old flash.new (def.checkpoint_pages tariff (world_of flash.old)) }
{
    for k in 0..page_count(flash.state.nodes) {
        checkpoint_page(flash, tariff, k);
    }
}

// The end of a batch.
pub fn checkpoint(flash: &mut Flash, tariff: Tariff)
    requires limit { flash.old.state.nodes ≤ node_limit flash.old.state.blocks }
    requires begun { flash.old.state.checkpoint ≡ 0 }
    ensures { Steps Ended flash.old flash.new (def.checkpoint tariff (world_of flash.old)) }
{
    drain(flash);
    checkpoint_pages(flash, tariff);
}
