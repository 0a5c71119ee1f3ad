// What a request writes of its node, by the mode that the node is in then.
ghost use Rattle.std.specs.Prelude.{◌<◌};
ghost use Rattle.node.specs.Value.{node_of, Sized};
ghost use Rattle.node.specs.Drafts.{change_of};
ghost use Rattle.flash_allocate.specs.World.{Kept};
ghost use Rattle.flash_allocate.specs.Flash.{world_of, Steps};
ghost use Rattle.run_serve.specs.Write.{write_whole, write_edit};

use account::Mode;
use flash_allocate::flash::Flash;
use flash_write::edit::edit;
use flash_write::group::group;
use flash_write::node_page::node_page;
use node::{ChangeValue, NodeValue};

// The whole content: a group of entries in log mode, a page in disk mode.
pub fn write_whole(flash: &mut Flash, id: usize, mode: Mode, v: NodeValue)
    requires known { id < flash.old.state.nodes }
    requires sized { Sized v }
    ensures { Steps Kept flash.old flash.new (write_whole mode id (node_of v) (world_of flash.old)) }
{
    match mode {
        Mode::Log => group(flash, id, v),
        Mode::Disk => node_page(flash, id, v),
    }
}

// An edit: an entry in log mode, a page with the edited content in disk mode.
pub fn write_edit(flash: &mut Flash, id: usize, mode: Mode, change: ChangeValue, edited: NodeValue)
    requires known { id < flash.old.state.nodes }
    requires sized { Sized edited }
    ensures { Steps Kept flash.old flash.new
        (write_edit mode id (change_of change) (node_of edited) (world_of flash.old)) }
{
    match mode {
        Mode::Log => edit(flash, id, change, edited),
        Mode::Disk => node_page(flash, id, edited),
    }
}
