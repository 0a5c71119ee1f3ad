// A node page.
ghost use Rattle.std.specs.Prelude.{◌≡◌, ◌+◌, ◌*◌, ◌≤◌, ◌<◌, length, set};
ghost use Rattle.flash_rows.specs.Row.{row_bytes};
ghost use Rattle.flash_rows.specs.Worktable.{rows_at, table_from};
ghost use Rattle.flash_blocks.specs.Pages.{pages_of};
ghost use Rattle.node.specs.Value.{node_of, Sized};
ghost use Rattle.page.specs.Page as p;
ghost use Rattle.page.specs.Image.{image};
ghost use Rattle.flash_allocate.specs.World.{Kept};
ghost use Rattle.flash_allocate.specs.Flash.{world_of, Steps};
ghost use Rattle.flash_write.specs.NodePage as def;
ghost use Rattle.flash_write.specs.NodePage.{on_page, write_node};
ghost use Rattle.layout.specs.Layout.{page_bytes, pages_in_block};

use account::Mode;
use flash_allocate::allocate::allocate;
use flash_allocate::flash::Flash;
use flash_allocate::state::{advance, next_sequence};
use flash_blocks::page::put_page;
use flash_rows::table::{put_row, row_at};
use layout::PAGES_IN_BLOCK;
use node::NodeValue;
use page_write::node_page::node_image;

// A node written as a page of the pool.
fn put_node(pool: &mut [u8], page: usize, number: u32, id: usize, v: NodeValue)
    requires { (page_bytes * page + page_bytes ≤ length pool.old) × (id < 65536) × (Sized v) }
    ensures { pages_of pool.new ≡ set (pages_of pool.old) page
        (image (p.page number (p.whole id (node_of v)))) }
{
    let bytes = node_image(
        number,
        id as u32,
        v.shape,
        &v.keys,
        &v.pointers,
        v.count,
        v.link,
    );
    put_page(pool, page, &bytes);
}

// The row of a node that has this page for its version, alone.
#[tactic(auto, unfolding(crate::specs::NodePage::disk_row))]
fn node_page_row(table: &mut [u8], id: usize, number: u32, page: u16)
    requires { rows_at + row_bytes * id + row_bytes ≤ length table.old }
    ensures { table_from table.new ≡ on_page id number page (table_from table.old) }
{
    let row = row_at(table, id).fresh(number, Mode::Disk).note(page);
    put_row(table, id, row);
}

// A node page as the next page, in a block that has room.
fn write_node(flash: &mut Flash, id: usize, v: NodeValue)
    requires room { flash.old.state.fill < pages_in_block }
    requires known { id < flash.old.state.nodes }
    requires sized { Sized v }
    ensures { Steps Kept flash.old flash.new (write_node id (node_of v) (world_of flash.old)) }
{
    let state = flash.state;
    let page = PAGES_IN_BLOCK * state.current + state.fill;
    let number = next_sequence(state.last);
    put_node(flash.pool, page, number, id, v);
    node_page_row(flash.table, id, number, page as u16);
    flash.state = advance(state, number);
}

// A place, then the node page there.
pub fn node_page(flash: &mut Flash, id: usize, v: NodeValue)
    requires known { id < flash.old.state.nodes }
    requires sized { Sized v }
    ensures { Steps Kept flash.old flash.new (def.node_page id (node_of v) (world_of flash.old)) }
{
    allocate(flash);
    if flash.state.fill < PAGES_IN_BLOCK {
        write_node(flash, id, v);
    }
}
