// The command put.
ghost use Rattle.std.specs.Prelude.{◌≡◌, ◌≤◌, length};
ghost use Rattle.layout.specs.Layout.{most_keys, node_limit, most_blocks};
ghost use Rattle.account.specs.Range.{Ranged};
ghost use Rattle.command.specs.Answer.{value_or};
ghost use Rattle.pairs.specs.Pairs.{lookup};
ghost use Rattle.node.specs.Value.{pairs_in, node_of, Held};
ghost use Rattle.tree.specs.Put.{ids_needed};
ghost use Rattle.tree_laws.specs.IdsNeeded.{size_at};
ghost use Rattle.flash_allocate.specs.Flash.{world_of, Same};
ghost use Rattle.run_path.specs.Path.{table_in};
ghost use Rattle.run_split.specs.Growing.{Grows};
ghost use Rattle.run_serve.specs.Step.{InFlash, AnsweredIn};
ghost use Rattle.run_put.specs.Put as def;
ghost use Rattle.run_put.specs.Put.{RequestsAs, DoneAs};

use super::ids::ids_needed;
use account::Tariff;
use command::Answer;
use flash_allocate::flash::Flash;
use layout::{MOST_NODES, node_limit};
use node::fit::fit;
use node::search::value_at;
use node::{ChangeValue, NodeValue};
use run_path::path::{Path, path_to};
use run_path::reads::read_nodes;
use run_serve::charged::Answered;
use run_serve::request::serve_edit_holding;
use run_split::split_upwards::split_upwards;

// The value that a put replaces, where there is one.
fn replaced_answer(v: NodeValue, key: u32) -> Answer
    requires { Held v }
    ensures { result ≡ value_or Answer.Replaced (lookup key (pairs_in v)) }
{
    match value_at(v, key) {
        Some(old) => Answer::Replaced(old),
        None => Answer::Absent,
    }
}

// The reads of the path, then one edit of its leaf, whose content of before the reads is in hand: a read changes none.
fn read_and_edit(
    flash: &mut Flash,
    tariff: Tariff,
    ids: &[u32],
    leaf: NodeValue,
    key: u32,
    value: u32,
) -> u64
    requires grows { Grows flash.old }
    requires ranged { Ranged tariff }
    requires some { 1 ≤ length ids.now }
    requires few { length ids.now ≤ node_limit most_blocks }
    requires held { Held leaf }
    ensures buffers { Same flash.old flash.new }
    ensures served { InFlash RequestsAs flash.new result flash.old.state
        (def.read_and_edit tariff ids.now (def.last_of ids.now) (node_of leaf) key value (world_of flash.old)) }
{
    let edit = ChangeValue::Put {
        key,
        pointer: value,
    };
    let last = ids[ids.len() - 1] as usize;
    read_nodes(flash, tariff, ids) + serve_edit_holding(flash, tariff, last, leaf, edit)
}

// The reads of the path, then the splits.
fn read_and_split(flash: &mut Flash, tariff: Tariff, ids: &[u32], key: u32, value: u32) -> u64
    requires grows { Grows flash.old }
    requires ranged { Ranged tariff }
    requires some { 1 ≤ length ids.now }
    requires few { length ids.now ≤ node_limit most_blocks }
    ensures buffers { Same flash.old flash.new }
    ensures served { InFlash RequestsAs flash.new result flash.old.state
        (def.read_and_split tariff ids.now key value (world_of flash.old)) }
{
    read_nodes(flash, tariff, ids) + split_upwards(flash, tariff, ids, key, value)
}

// A new key for a full leaf, at the end of a path: refused, or put with the splits.
fn put_splitting(flash: &mut Flash, tariff: Tariff, ids: &[u32], key: u32, value: u32) -> Answered
    requires grows { Grows flash.old }
    requires ranged { Ranged tariff }
    requires some { 1 ≤ length ids.now }
    requires few { length ids.now ≤ node_limit most_blocks }
    requires full { most_keys ≤ size_at (table_in (world_of flash.old)) (def.last_of ids.now) }
    ensures buffers { Same flash.old flash.new }
    ensures served { AnsweredIn DoneAs flash.new result flash.old.state
        (def.put_splitting tariff ids.now (ids_needed (table_in (world_of flash.old)) ids.now) key value
        (world_of flash.old)) }
{
    let needed = ids_needed(flash.pool(), flash.table(), flash.state, ids);
    if node_limit(flash.state.blocks) < flash.state.nodes + needed {
        return Answered {
            charge: 0,
            answer: Answer::Refused(9),
        };
    }
    Answered {
        charge: read_and_split(flash, tariff, ids, key, value),
        answer: Answer::Absent,
    }
}

// A value put at a key. The ids of its path are laid into `ids`, which are lent, since a stack is small.
pub fn put(
    flash: &mut Flash,
    ids: &mut [u32; MOST_NODES],
    tariff: Tariff,
    key: u32,
    value: u32,
) -> Answered
    requires grows { Grows flash.old }
    requires ranged { Ranged tariff }
    requires room { length ids.old ≡ node_limit most_blocks }
    ensures buffers { Same flash.old flash.new }
    ensures served { AnsweredIn DoneAs flash.new result flash.old.state (def.put tariff key value (world_of flash.old)) }
    ensures room { length ids.new ≡ node_limit most_blocks }
{
    let Path { length, leaf } = path_to(flash.pool(), flash.table(), ids, flash.state, key);
    match fit(leaf, key) {
        Ok(()) => Answered {
            charge: read_and_edit(flash, tariff, &ids[..length], leaf, key, value),
            answer: replaced_answer(leaf, key),
        },
        Err(_) => put_splitting(flash, tariff, &ids[..length], key, value),
    }
}
