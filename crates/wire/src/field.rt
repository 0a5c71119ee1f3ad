// Fields: one-byte tag, two-byte length, payload.
ghost use Rattle.std.specs.Prelude.{◌≡◌, ◌+◌, ◌≤◌, ◌<◌, length};
ghost use Rattle.laws.specs.Lay.{lay};
ghost use Rattle.wire.specs.Field.{head, field, Found, payload_at};

use super::bytes::lay_bytes;
use super::number::{read16, write16};
use super::tag::may_have;

// Where the payload of a field lies.
#[derive(Clone, Copy, Debug, PartialEq, Eq)]
pub struct Span {
    pub start: usize,
    pub end: usize,
}

// Why no field of some tag stands at a place.
#[derive(Clone, Copy, Debug, PartialEq, Eq)]
pub enum Fault {
    // Too few bytes are left for a tag and a length.
    Missing,
    // Another tag, or a length that the tag may not have.
    Foreign,
    // The payload runs past the end.
    Overlong,
}

// The field of a tag at a place.
pub fn field_at(s: &[u8], at: usize, tag: u8) -> Result<Span, Fault>
    ensures { Found s.now at tag result }
{
    if s.len() < 3 || s.len() - 3 < at {
        return Err(Fault::Missing);
    }
    if s[at] != tag {
        return Err(Fault::Foreign);
    }
    let n = read16(s, at + 1);
    if !may_have(tag, n) {
        return Err(Fault::Foreign);
    }
    let start = at + 3;
    let bytes = n as usize;
    if s.len() - start < bytes {
        return Err(Fault::Overlong);
    }
    Ok(Span {
        start,
        end: start + bytes,
    })
}

// Its payload, as the part of the slice that it is; nothing where there is no such field.
pub fn payload(s: &[u8], at: usize, tag: u8) -> &[u8]
    ensures { result.now ≡ payload_at s.now at tag }
{
    match field_at(s, at, tag) {
        Ok(found) => &s[found.start..found.end],
        Err(_) => &[],
    }
}

// Lays a tag and a length.
pub fn lay_head(dst: &mut [u8], at: usize, tag: u8, bytes: u32)
    requires { (at + 3 ≤ length dst.old) × (bytes < 65536) }
    ensures { dst.new ≡ lay dst.old at (head tag bytes) }
{
    dst[at] = tag;
    write16(dst, at + 1, bytes);
}

// Lays a field.
pub fn lay_field(dst: &mut [u8], at: usize, tag: u8, payload: &[u8])
    requires { (at + 3 + length payload.now ≤ length dst.old) × (length payload.now < 65536) }
    ensures { dst.new ≡ lay dst.old at (field tag payload.now) }
{
    let bytes = payload.len() as u32;
    lay_head(dst, at, tag, bytes);
    lay_bytes(dst, at + 3, payload);
}
