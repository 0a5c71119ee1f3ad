// The account of a request settled: what it costs, the switch where it makes one, the score after it.
ghost use Rattle.std.specs.Prelude.{◌≡◌, ◌+◌, ◌*◌, ◌≤◌, ◌<◌, length, IfSome};
ghost use Rattle.account.specs.Range.{Ranged};
ghost use Rattle.node.specs.Value.{Sized};
ghost use Rattle.flash_rows.specs.Row.{row_bytes};
ghost use Rattle.flash_rows.specs.Worktable.{rows_at, table_from};
ghost use Rattle.flash_allocate.specs.World.{Kept};
ghost use Rattle.flash_allocate.specs.Flash.{world_of, Steps, Same};
ghost use Rattle.run_serve.specs.Content.{content_of, in_hand};
ghost use Rattle.run_serve.specs.Step.{InBytes};
ghost use Rattle.run_serve.specs.Settle as def;
ghost use Rattle.run_serve.specs.Settle.{account_in, rescored, settled_by, SettledAs};

use super::content::content_of;
use super::write::write_whole;
use account::{Account, Mode, Request, Served, Tariff};
use flash_allocate::flash::Flash;
use flash_rows::Row;
use flash_rows::table::{put_row, row_at};
use node::NodeValue;

// The account that a row keeps.
fn account_in(row: Row) -> Account
    ensures { result ≡ account_in row }
{
    Account {
        mode: row.mode,
        score: row.score,
    }
}

// The score of a node, in its row as it is now.
#[tactic(auto, unfolding(crate::specs::Settle::rescored))]
fn rescore(table: &mut [u8], id: usize, score: u32)
    requires { rows_at + row_bytes * id + row_bytes ≤ length table.old }
    ensures { table_from table.new ≡ rescored id score (table_from table.old) }
{
    let row = row_at(table, id).scored(score);
    put_row(table, id, row);
}

// A switch where the modes differ: the content that the node has, in hand or read, whole in the other mode.
fn switch(flash: &mut Flash, id: usize, from: Mode, to: Mode, held: Option<&NodeValue>)
    requires known { id < flash.old.state.nodes }
    requires sized { IfSome held (λ v. Sized v.now) }
    ensures { let w = world_of flash.old in
        Steps Kept flash.old flash.new (def.switch from to id (in_hand held.entry (content_of id w)) w) }
{
    if from == to {
        return;
    }
    let old = match held {
        Some(v) => *v,
        None => content_of(flash.pool(), flash.table(), flash.state, id),
    };
    write_whole(flash, id, to, old);
}

// The account of a node serves a request: the switch that it asks for is made, and its score stored. The content is read for a
// switch alone, where the caller has it not in hand. The answer is the account after the request, and the charge.
pub fn settle(
    flash: &mut Flash,
    tariff: Tariff,
    id: usize,
    held: Option<&NodeValue>,
    request: Request,
) -> Served
    requires known { id < flash.old.state.nodes }
    requires ranged { Ranged tariff }
    requires sized { IfSome held (λ v. Sized v.now) }
    ensures buffers { Same flash.old flash.new }
    ensures settled { let w = world_of flash.old in
        InBytes SettledAs flash.new.pool.now flash.new.table.now (settled_by flash.new.state result)
        tariff request id (in_hand held.entry (content_of id w)) w }
{
    let row = row_at(flash.table(), id);
    let served = account_in(row).serve(tariff, request);
    switch(flash, id, row.mode, served.account.mode, held);
    rescore(flash.table, id, served.account.score);
    served
}
