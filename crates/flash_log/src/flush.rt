// The buffer written as a log page.
ghost use Rattle.std.specs.Prelude.{◌≡◌, ◌+◌, ◌*◌, ◌≤◌, ◌<◌, length, set};
ghost use Rattle.flash_rows.specs.Worktable.{buffer_bytes};
ghost use Rattle.flash_blocks.specs.Pages.{pages_of};
ghost use Rattle.flash_allocate.specs.World.{Kept};
ghost use Rattle.flash_allocate.specs.Flash.{world_of, Steps};
ghost use Rattle.page_write.specs.Pages.{log_image};
ghost use Rattle.flash_log.specs.Flush as def;
ghost use Rattle.flash_log.specs.Flush.{write_buffer};
ghost use Rattle.layout.specs.Layout.{most_entries, page_bytes, pages_in_block};

use super::claim::claim_entries;
use flash_allocate::allocate::allocate;
use flash_allocate::flash::Flash;
use flash_allocate::state::{advance, next_sequence, without_entries};
use flash_blocks::page::put_page;
use flash_rows::table::buffer_part;
use layout::{MOST_ENTRIES, PAGES_IN_BLOCK};
use page_write::log_page::log_image;

// The buffer as the next page, in a block that has room.
fn write_buffer(flash: &mut Flash)
    requires { flash.old.state.fill < pages_in_block }
    ensures { Steps Kept flash.old flash.new (write_buffer (world_of flash.old)) }
{
    let state = flash.state;
    let page = PAGES_IN_BLOCK * state.current + state.fill;
    let number = next_sequence(state.last);
    let image = log_image(number, buffer_part(flash.table()), state.entries);
    put_page(flash.pool, page, &image);
    claim_entries(flash.table, state.entries, state.nodes, page as u16);
    flash.state = without_entries(advance(state, number));
}

// A place, then the buffer as a page there.
pub fn flush(flash: &mut Flash)
    ensures { Steps Kept flash.old flash.new (def.flush (world_of flash.old)) }
{
    allocate(flash);
    if flash.state.fill < PAGES_IN_BLOCK {
        write_buffer(flash);
    }
}

// Room for k entries in the buffer.
pub fn make_room(flash: &mut Flash, k: usize)
    requires { k ≤ most_entries }
    ensures { Steps Kept flash.old flash.new (def.room k (world_of flash.old)) }
{
    if MOST_ENTRIES < k + flash.state.entries {
        flush(flash);
    }
}
