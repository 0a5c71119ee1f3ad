// An edit of a node in log mode.
ghost use Rattle.std.specs.Prelude.{◌<◌};
ghost use Rattle.node.specs.Value.{node_of, Sized};
ghost use Rattle.node.specs.Drafts.{change_of};
ghost use Rattle.flash_allocate.specs.World.{Kept};
ghost use Rattle.flash_allocate.specs.Flash.{world_of, Steps};
ghost use Rattle.flash_write.specs.Edit as def;

use super::group::group;
use flash_allocate::flash::Flash;
use flash_log::entry::append;
use flash_log::flush::make_room;
use flash_rows::table::row_at;
use node::{ChangeValue, NodeValue};

// One entry under the node's version; of a node that lies on three pages by then, the whole edited content.
pub fn edit(flash: &mut Flash, id: usize, change: ChangeValue, edited: NodeValue)
    requires known { id < flash.old.state.nodes }
    requires sized { Sized edited }
    ensures { Steps Kept flash.old flash.new (def.edit id (change_of change) (node_of edited) (world_of flash.old)) }
{
    make_room(flash, 1);
    let row = row_at(flash.table(), id);
    if row.pages < 3 {
        flash.state = append(flash.table, flash.state, id, row.version, change);
    } else {
        group(flash, id, edited);
    }
}
