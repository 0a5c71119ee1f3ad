// The whole content of a node as a group of entries under a new version.
ghost use Rattle.std.specs.Prelude.{◌≡◌, ◌+◌, ◌*◌, ◌≤◌, ◌<◌, length};
ghost use Rattle.flash_rows.specs.Row.{row_bytes};
ghost use Rattle.flash_rows.specs.Worktable.{rows_at, rows_for, table_from};
ghost use Rattle.node.specs.Change.{puts, changes_of};
ghost use Rattle.node.specs.Value.{pairs_in, node_of, Sized};
ghost use Rattle.flash_allocate.specs.World.{Kept};
ghost use Rattle.flash_allocate.specs.Flash.{world_of, Steps};
ghost use Rattle.flash_log.specs.Entry.{logged, append_all};
ghost use Rattle.flash_allocate.specs.State.{next_sequence};
ghost use Rattle.flash_log.specs.Flush.{room};
ghost use Rattle.layout.specs.Layout.{most_entries};
ghost use Rattle.flash_write.specs.Group as def;
ghost use Rattle.flash_write.specs.Group.{started, Grown};

use account::Mode;
use flash_allocate::flash::Flash;
use flash_allocate::state::{State, next_sequence};
use flash_log::entry::append;
use flash_log::flush::make_room;
use flash_rows::table::{put_row, row_at};
use flash_rows::{Row, no_row};
use node::{ChangeValue, NodeValue};

// An entry for each pair, ascending.
fn append_pairs(table: &mut [u8], state: State, id: usize, version: u32, v: NodeValue) -> State
    requires { (rows_at ≤ length table.old) × (Sized v) }
    ensures { logged (table_from table.new) result
        ≡ append_all id version (puts (pairs_in v)) (logged (table_from table.old) state) }
{
    let keys = &v.keys[..v.count];
    let pointers = &v.pointers[..v.count];
    let mut s = state;
    for (key, pointer) in keys.iter().zip(pointers) {
        let change = ChangeValue::Put {
            key: *key,
            pointer: *pointer,
        };
        s = append(table, s, id, version, change);
    }
    s
}

// An entry for each pair, then the link's.
#[tactic(auto, using(crate::proofs::Laws::append_all_last))]
fn append_node(table: &mut [u8], state: State, id: usize, version: u32, v: NodeValue) -> State
    requires { (rows_at ≤ length table.old) × (Sized v) }
    ensures { logged (table_from table.new) result
        ≡ append_all id version (changes_of (node_of v)) (logged (table_from table.old) state) }
{
    let s = append_pairs(table, state, id, version, v);
    let change = ChangeValue::Link {
        shape: v.shape,
        link: v.link,
    };
    append(table, s, id, version, change)
}

// A fresh start of a node whose row was this.
fn start(table: &mut [u8], state: State, id: usize, row: Row, version: u32, v: NodeValue) -> State
    requires { (rows_at + row_bytes * id + row_bytes ≤ length table.old) × (Sized v) }
    ensures { logged (table_from table.new) result
        ≡ started id row version (node_of v) (table_from table.old) state }
{
    put_row(table, id, row.fresh(version, Mode::Log));
    let s = State {
        last: version,
        ..state
    };
    append_node(table, s, id, version, v)
}

// Room for so many entries, and the version behind it: a page that they force out takes its sequence number before.
fn begin(flash: &mut Flash, entries: usize) -> u32
    requires { entries ≤ most_entries }
    ensures room { Steps Kept flash.old flash.new (room entries (world_of flash.old)) }
    ensures version { result ≡ next_sequence flash.new.state.last }
{
    make_room(flash, entries);
    next_sequence(flash.state.last)
}

// The whole content of a node under a new version.
pub fn group(flash: &mut Flash, id: usize, v: NodeValue)
    requires known { id < flash.old.state.nodes }
    requires sized { Sized v }
    ensures { Steps Kept flash.old flash.new (def.group id (node_of v) (world_of flash.old)) }
{
    let version = begin(flash, v.count + 1);
    let row = row_at(flash.table(), id);
    flash.state = start(flash.table, flash.state, id, row, version, v);
}

// A new node, the next one, in log mode with score 0.
pub fn create(flash: &mut Flash, v: NodeValue)
    requires room { flash.old.state.nodes + flash.old.state.checkpoint < rows_for flash.old.state.blocks }
    requires sized { Sized v }
    ensures { Steps Grown flash.old flash.new (def.create (node_of v) (world_of flash.old)) }
{
    let version = begin(flash, v.count + 1);
    let nodes = flash.state.nodes;
    let started = start(flash.table, flash.state, nodes, no_row(), version, v);
    flash.state = State {
        nodes: nodes + 1,
        ..started
    };
}
