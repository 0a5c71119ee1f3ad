// Is the tree sound, and are sequence numbers left?
ghost use Rattle.std.specs.Prelude.{◌≡◌, ◌*◌, ◌≤◌, length};
ghost use Rattle.layout.specs.Layout.{block_bytes, fewest_blocks, most_blocks, node_limit, table_bytes};
ghost use Rattle.flash_rows.specs.Worktable.{rows_in, table_from};
ghost use Rattle.flash_blocks.specs.Pages.{pages_of};
ghost use Rattle.tree.specs.Sound.{sound};
ghost use Rattle.flash_read.specs.NodeTable.{table_of};
ghost use Rattle.mount_restore.specs.Blank.{BlankFrom};
ghost use Rattle.mount_restore.specs.Questions.{rows_pass, Judged, Asked};

use super::scores::scores_below;
use super::table::restore_rows;
use account::Tariff;
use flash_allocate::state::State;
use flash_rows::table::ROWS_AT;
use layout::{LAST_SEQUENCE, ROW_BYTES, TABLE_BYTES, node_limit};
use mount_tree::is_sound;
use refusal::Refusal;
use wire::bytes::fill_part;

// Whether the tree of the rows is sound. The check works behind the rows of the nodes, where no row stands, and leaves no row there.
fn tree_sound(pool: &[u8], table: &mut [u8], state: State) -> bool
    requires { (fewest_blocks ≤ state.blocks) × (state.blocks ≤ most_blocks)
        × (length table.old ≡ table_bytes state.blocks) × (state.nodes ≤ node_limit state.blocks)
        × (state.entries ≡ 0) × (BlankFrom state.nodes (rows_in table.old)) }
    ensures { (result ≡ sound (node_limit state.blocks) state.nodes
        (table_of (pages_of pool.now) (table_from table.old) state))
        × (table_from table.new ≡ table_from table.old) }
{
    let limit = node_limit(state.blocks);
    let kept = ROWS_AT + ROW_BYTES * limit;
    let sound = is_sound(pool, table, kept, state, limit);
    fill_part(table, kept, TABLE_BYTES * state.blocks, 0);
    sound
}

// Whether restored rows pass: the tariff in range, the scores below its limit, the tree sound.
fn rows_pass(pool: &[u8], table: &mut [u8], state: State, tariff: Tariff) -> bool
    requires { (fewest_blocks ≤ state.blocks) × (state.blocks ≤ most_blocks)
        × (length table.old ≡ table_bytes state.blocks) × (state.nodes ≤ node_limit state.blocks)
        × (state.entries ≡ 0) × (BlankFrom state.nodes (rows_in table.old)) }
    ensures { (result ≡ rows_pass tariff state (pages_of pool.now) (table_from table.old))
        × (table_from table.new ≡ table_from table.old) }
{
    if !tariff.in_range() {
        return false;
    }
    scores_below(table, state.nodes, tariff.limit()) && tree_sound(pool, table, state)
}

// Question 7. A count above the limit has no rows to restore.
fn tree_passes(pool: &[u8], table: &mut [u8], state: State, tariff: Tariff, since: u32) -> bool
    requires { (fewest_blocks ≤ state.blocks) × (state.blocks ≤ most_blocks)
        × (length pool.now ≡ block_bytes * state.blocks) × (length table.old ≡ table_bytes state.blocks)
        × (state.entries ≡ 0) }
    ensures { Judged tariff state since (pages_of pool.now) (table_from table.new) result }
{
    if node_limit(state.blocks) < state.nodes {
        return false;
    }
    restore_rows(pool, table, state.blocks, state.nodes, since)
        && rows_pass(pool, table, state, tariff)
}

// Questions 7 and 8 of a state to begin with. After a refusal the table is left open.
pub fn refusal(
    pool: &[u8],
    table: &mut [u8],
    state: State,
    tariff: Tariff,
    since: u32,
) -> Result<(), Refusal>
    requires { (fewest_blocks ≤ state.blocks) × (state.blocks ≤ most_blocks)
        × (length pool.now ≡ block_bytes * state.blocks) × (length table.old ≡ table_bytes state.blocks)
        × (state.entries ≡ 0) }
    ensures { Asked tariff state since (pages_of pool.now) (table_from table.new) result }
{
    if !tree_passes(pool, table, state, tariff, since) {
        return Err(Refusal::Tree);
    }
    if LAST_SEQUENCE < state.last {
        return Err(Refusal::SequenceNumbers);
    }
    Ok(())
}
