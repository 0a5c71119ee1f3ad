// The place of the next page.
ghost use Rattle.flash_allocate.specs.World.{Kept};
ghost use Rattle.flash_allocate.specs.Allocate as def;
ghost use Rattle.flash_allocate.specs.Flash.{world_of, Steps};

use super::compact::compact;
use super::flash::Flash;
use flash_blocks::blank::{count_blank, next_blank};
use flash_rows::table::ROWS_AT;
use layout::PAGES_IN_BLOCK;

// The current block, or the next one, with room for a page.
pub fn allocate(flash: &mut Flash)
    ensures { Steps Kept flash.old flash.new (def.allocate (world_of flash.old)) }
{
    let state = flash.state;
    if state.fill < PAGES_IN_BLOCK {
        return;
    }
    let to = next_blank(flash.pool(), state.blocks, state.current);
    if 2 <= count_blank(flash.pool(), state.blocks) {
        flash.state = state.in_block(to, 0);
        return;
    }
    let used = state.nodes + state.checkpoint;
    let rows = &mut flash.table[ROWS_AT..];
    let fill = compact(flash.pool, rows, used, state.blocks, to);
    flash.state = state.in_block(to, fill);
}
