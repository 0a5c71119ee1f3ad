// Writer of checkpoint pages, from records of 6 bytes: a node's id (2) and its score (4).
#![tactic(auto)]

ghost use Rattle.std.specs.Prelude.{◌≡◌, ◌++◌, ◌+◌, ◌*◌, ◌≤◌, ◌<◌, length, IfSome};
ghost use Rattle.laws.specs.Lay.{lay};
ghost use Rattle.laws.specs.BigEndian.{big_endian};
ghost use Rattle.layout.specs.Layout.{page_bytes};
ghost use Rattle.wire.specs.Field.{field};
ghost use Rattle.page.specs.Image.{tariff_bytes, score_bytes, count_bytes, field_if, image};
ghost use Rattle.page.specs.Decode.{most_scores};
ghost use Rattle.page.specs.Limits.{given};
ghost use Rattle.page_write.specs.Laid.{summed};
ghost use Rattle.page_write.specs.Pages.{body_of};
ghost use Rattle.page_checkpoint.specs.Checkpoint.{scored, records_page, LaidTo};

use account::{Costs, Tariff};
use layout::{FIELDS_AT, FIRST_SCORES_AT, PAGE_BYTES, SCORE_BYTES, SCORE_FIELD};
use page_write::frame::{lay_run, lay_sequence, lay_sums};
use wire::field::lay_head;
use wire::number::{write16, write32};

// Lays the 6 bytes of a record: a node's id and its score.
pub fn lay_score(records: &mut [u8], at: usize, id: u32, score: u32)
    requires { (at + 6 ≤ length records.old) × (id < 65536) }
    ensures { records.new ≡ lay records.old at (score_bytes (scored id score)) }
{
    write16(records, at, id);
    write32(records, at + 2, score);
}

// Lays three numbers: what reads, edits and rewrites cost in one mode.
fn lay_costs(p: &mut [u8], at: usize, costs: Costs)
    requires { at + 12 ≤ length p.old }
    ensures { p.new ≡ lay p.old at
        (big_endian 4 costs.read ++ (big_endian 4 costs.edit ++ big_endian 4 costs.rewrite)) }
{
    write32(p, at, costs.read);
    write32(p, at + 4, costs.edit);
    write32(p, at + 8, costs.rewrite);
}

// Lays field 13.
fn lay_tariff(p: &mut [u8], at: usize, tariff: Tariff)
    requires { at + 35 ≤ length p.old }
    ensures { p.new ≡ lay p.old at (field 0x13 (tariff_bytes tariff)) }
{
    lay_head(p, at, 0x13, 32);
    lay_costs(p, at + 3, tariff.log);
    lay_costs(p, at + 15, tariff.disk);
    write32(p, at + 27, tariff.disk.enter);
    write32(p, at + 31, tariff.log.enter);
}

// Lays field 13 behind field 10 where the page has a tariff, as the first of a checkpoint has; the place behind it.
fn lay_front(p: &mut [u8], tariff: Option<Tariff>) -> usize
    requires { length p.old ≡ page_bytes }
    ensures { LaidTo p.old p.new 7 (field_if 0x13 tariff_bytes tariff) result }
{
    match tariff {
        Some(tariff) => {
            lay_tariff(p, FIELDS_AT, tariff);
            FIRST_SCORES_AT
        }
        None => FIELDS_AT,
    }
}

// Lays field 15 at a place where the page has a node count, as the last of a checkpoint has; the place behind it.
fn lay_end(p: &mut [u8], at: usize, count: Option<u32>) -> usize
    requires { (at + 5 ≤ length p.old) × IfSome count (λ nodes. nodes < 65536) }
    ensures { LaidTo p.old p.new at (field_if 0x15 count_bytes count) result }
{
    match count {
        Some(nodes) => {
            lay_head(p, at, 0x15, 2);
            write16(p, at + 3, nodes);
            at + 5
        }
        None => at,
    }
}

// Lays a checkpoint page of the first n records, but for the FF behind the sums.
fn lay_checkpoint(
    p: &mut [u8],
    sequence: u32,
    tariff: Option<Tariff>,
    records: &[u8],
    n: usize,
    count: Option<u32>,
)
    requires { (length p.old ≡ page_bytes)
        × ((n ≤ most_scores (given tariff)) × ((6 * n ≤ length records.now) × IfSome count (λ nodes. nodes < 65536))) }
    ensures { p.new ≡ lay p.old 0
        (summed (body_of (records_page sequence tariff n records.now count))) }
{
    lay_sequence(p, sequence);
    let at = lay_front(p, tariff);
    lay_run(p, at, 0x14, records, SCORE_BYTES, n);
    let end = lay_end(p, at + SCORE_FIELD * n, count);
    lay_sums(p, end);
}

// The image of a checkpoint page of the first n records: with the tariff on the first page of its checkpoint, with the node count on the last.
pub fn checkpoint_image(
    sequence: u32,
    tariff: Option<Tariff>,
    records: &[u8],
    n: usize,
    count: Option<u32>,
) -> [u8; PAGE_BYTES]
    requires { (n ≤ most_scores (given tariff)) × ((6 * n ≤ length records.now) × IfSome count (λ nodes. nodes < 65536)) }
    ensures { result ≡ image (records_page sequence tariff n records.now count) }
{
    let mut p = [255; PAGE_BYTES];
    lay_checkpoint(&mut p, sequence, tariff, records, n, count);
    p
}
