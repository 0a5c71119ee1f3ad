// FNV-1a, 64 bits: how a pool is told from another.

// The prime of FNV-1a: 2^40 + 435.
const PRIME: u64 = 1099511628211;

// The hash of some bytes.
pub fn hash(s: &[u8]) -> u64 {
    let mut h: u64 = 14695981039346656037;
    for byte in s {
        h = (h ^ u64::from(*byte)).wrapping_mul(PRIME);
    }
    h
}
