// Log pages, from the log buffer.
ghost use Rattle.std.specs.Prelude.{◌≡◌, ◌+◌, ◌*◌, ◌≤◌, ◌<◌, length};
ghost use Rattle.laws.specs.Lay.{lay};
ghost use Rattle.layout.specs.Layout.{page_bytes, most_entries, entry_size};
ghost use Rattle.page_write.specs.Laid.{summed};
ghost use Rattle.page_write.specs.Pages.{entry_record, log_body, log_image};

use super::frame::{lay_run, lay_sequence, lay_sums};
use layout::{ENTRY_BYTES, ENTRY_FIELD, FIELDS_AT, PAGE_BYTES};
use wire::bytes::lay_byte;
use wire::number::{write16, write32};

// Lays an entry's 15 bytes in the log buffer.
pub fn lay_entry(
    buffer: &mut [u8],
    at: usize,
    id: u32,
    version: u32,
    kind: u8,
    key: u32,
    pointer: u32,
)
    requires { (at + 15 ≤ length buffer.old) × (id < 65536) }
    ensures { buffer.new ≡ lay buffer.old at (entry_record id version kind key pointer) }
{
    write16(buffer, at, id);
    write32(buffer, at + 2, version);
    lay_byte(buffer, at + 6, kind);
    write32(buffer, at + 7, key);
    write32(buffer, at + 11, pointer);
}

// Lays a log page of the first n entries of a buffer, but for the FF behind the sums.
fn lay_log(p: &mut [u8], sequence: u32, buffer: &[u8], n: usize)
    requires { (length p.old ≡ page_bytes) × ((n ≤ most_entries) × (entry_size * n ≤ length buffer.now)) }
    ensures { p.new ≡ lay p.old 0 (summed (log_body sequence n buffer.now)) }
{
    lay_sequence(p, sequence);
    lay_run(p, FIELDS_AT, 0x12, buffer, ENTRY_BYTES, n);
    lay_sums(p, FIELDS_AT + ENTRY_FIELD * n);
}

// The image of a log page of the first n entries of a buffer.
pub fn log_image(sequence: u32, buffer: &[u8], n: usize) -> [u8; PAGE_BYTES]
    requires { (n ≤ most_entries) × (entry_size * n ≤ length buffer.now) }
    ensures { result ≡ log_image sequence n buffer.now }
{
    let mut p = [255; PAGE_BYTES];
    lay_log(&mut p, sequence, buffer, n);
    p
}
