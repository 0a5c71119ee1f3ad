// One log entry, and the buffer with one entry more.
ghost use Rattle.std.specs.Prelude.{◌≡◌, ◌≤◌, ◌<◌, length};
ghost use Rattle.node.specs.Drafts.{change_of};
ghost use Rattle.page.specs.Image.{change_number, change_key, change_pointer, entry_bytes};
ghost use Rattle.flash_log.specs.Entry as def;
ghost use Rattle.flash_log.specs.Entry.{entry_of, logged, laid_at};
ghost use Rattle.flash_rows.specs.Worktable.{rows_at, table_from};
ghost use Rattle.layout.specs.Layout.{most_entries};

use flash_allocate::state::State;
use layout::{ENTRY_BYTES, MOST_ENTRIES};
use node::ChangeValue;
use page::shape_number;
use page_write::log_page::lay_entry;

// The number of a change's kind, its key and its pointer, 0 where it has none.
fn numbers(change: ChangeValue) -> (u8, u32, u32)
    ensures { result
        ≡ (change_number (change_of change), change_key (change_of change), change_pointer (change_of change)) }
{
    match change {
        ChangeValue::Put { key, pointer } => (1, key, pointer),
        ChangeValue::Delete { key } => (2, key, 0),
        ChangeValue::Link { shape, link } => (shape_number(shape), 0, link),
    }
}

// Lays an entry behind the first n of the buffer; an id has two bytes.
fn lay_change(table: &mut [u8], n: usize, id: usize, version: u32, change: ChangeValue)
    requires { (n < most_entries) × (rows_at ≤ length table.old) }
    ensures { table_from table.new
        ≡ laid_at n (entry_bytes (entry_of id version (change_of change))) (table_from table.old) }
{
    let (kind, key, pointer) = numbers(change);
    lay_entry(
        table,
        ENTRY_BYTES * n,
        (id % 65536) as u32,
        version,
        kind,
        key,
        pointer,
    );
}

// One entry more in the buffer, where it has room.
pub fn append(table: &mut [u8], state: State, id: usize, version: u32, change: ChangeValue) -> State
    requires { rows_at ≤ length table.old }
    ensures { logged (table_from table.new) result
        ≡ def.append id version (change_of change) (logged (table_from table.old) state) }
{
    if state.entries >= MOST_ENTRIES {
        return state;
    }
    lay_change(table, state.entries, id, version, change);
    State {
        entries: state.entries + 1,
        ..state
    }
}
