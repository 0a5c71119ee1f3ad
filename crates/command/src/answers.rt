// The answers of a batch, laid into the answer buffer one behind the other.
ghost use Rattle.std.specs.Prelude.{◌≡◌, ◌+◌, ◌*◌, ◌≤◌, length};
ghost use Rattle.laws.specs.Lay.{lay};
ghost use Rattle.wire.specs.Field.{field, head};
ghost use Rattle.laws.specs.BigEndian.{big_endian};
ghost use Rattle.command.specs.Answer.{answer_bytes, pair_bytes, scan_tag, ceiling_bytes};
ghost use Rattle.layout.specs.Layout.{most_pairs};

use crate::Answer;
use wire::bytes::lay_byte;
use wire::field::lay_head;
use wire::number::write32;

// Lays a field of a tag and one 32-bit number, and says where the next answer goes.
fn lay_value(buffer: &mut [u8], at: usize, tag: u8, value: u32) -> usize
    requires { at + 7 ≤ length buffer.old }
    ensures { (buffer.new ≡ lay buffer.old at (field tag (big_endian 4 value)))
        × (result ≡ at + 7) }
{
    lay_head(buffer, at, tag, 4);
    write32(buffer, at + 3, value);
    at + 7
}

// Lays an answer that no route is there.
#[tactic(auto, unfolding(crate::specs::Answer::answer_bytes, wire::specs::Field::field))]
fn lay_absent(buffer: &mut [u8], at: usize) -> usize
    requires { at + 3 ≤ length buffer.old }
    ensures { (buffer.new ≡ lay buffer.old at (answer_bytes Answer.Absent)) × (result ≡ at + 3) }
{
    lay_head(buffer, at, 0x80, 0);
    at + 3
}

// Lays a refusal with its number.
fn lay_refused(buffer: &mut [u8], at: usize, number: u8) -> usize
    requires { at + 4 ≤ length buffer.old }
    ensures { (buffer.new ≡ lay buffer.old at (answer_bytes (Answer.Refused number)))
        × (result ≡ at + 4) }
{
    lay_head(buffer, at, 0x8F, 1);
    lay_byte(buffer, at + 3, number);
    at + 4
}

// Lays an answer of 7 bytes or fewer, and says where the next goes.
#[tactic(auto, unfolding(crate::specs::Answer::answer_bytes, wire::specs::Field::field))]
pub fn lay_answer(buffer: &mut [u8], at: usize, answer: Answer) -> usize
    requires { at + 7 ≤ length buffer.old }
    ensures { (buffer.new ≡ lay buffer.old at (answer_bytes answer))
        × (result ≡ at + length (answer_bytes answer)) }
{
    match answer {
        Answer::Absent => lay_absent(buffer, at),
        Answer::Got(value) => lay_value(buffer, at, 0x81, value),
        Answer::Replaced(value) => lay_value(buffer, at, 0x82, value),
        Answer::Deleted(value) => lay_value(buffer, at, 0x83, value),
        Answer::Refused(number) => lay_refused(buffer, at, number),
    }
}

// Lays one pair of an answer, behind those before it.
pub fn lay_pair(buffer: &mut [u8], at: usize, key: u32, value: u32)
    requires { at + 8 ≤ length buffer.old }
    ensures { buffer.new ≡ lay buffer.old at (pair_bytes (key, value)) }
{
    write32(buffer, at, key);
    write32(buffer, at + 4, value);
}

// Lays the tag and the length of a scan's answer, in front of its pairs.
pub fn lay_scan_head(buffer: &mut [u8], at: usize, pairs: usize)
    requires { (at + 3 ≤ length buffer.old) × (pairs ≤ most_pairs) }
    ensures { buffer.new ≡ lay buffer.old at (head scan_tag (8 * pairs)) }
{
    let bytes = (8 * pairs) as u32;
    lay_head(buffer, at, 0x84, bytes);
}

// Lays the answer of a ceiling, the pair that it found, and says where the next answer goes.
pub fn lay_ceiling(buffer: &mut [u8], at: usize, key: u32, value: u32) -> usize
    requires { at + 11 ≤ length buffer.old }
    ensures { (buffer.new ≡ lay buffer.old at (ceiling_bytes (key, value))) × (result ≡ at + 11) }
{
    lay_head(buffer, at, 0x87, 8);
    lay_pair(buffer, at + 3, key, value);
    at + 11
}
