// A scan's answer, laid into the answer buffer.
ghost use Rattle.std.specs.Prelude.{◌≡◌, ◌+◌, ◌*◌, ◌≤◌, length};
ghost use Rattle.laws.specs.Lay.{lay};
ghost use Rattle.command.specs.Answer.{scan_bytes};
ghost use Rattle.run_scan.specs.Pairs.{pairs_of, Sized};

use super::Pairs;
use command::answers::{lay_pair, lay_scan_head};

// Lays the pairs behind the place of the head, then the head, and says where the next answer goes.
pub fn lay_scan(buffer: &mut [u8], at: usize, pairs: Pairs) -> usize
    requires { (Sized pairs) × (at + (3 + 8 * pairs.count) ≤ length buffer.old) }
    ensures { (buffer.new ≡ lay buffer.old at (scan_bytes (pairs_of pairs)))
        × (result ≡ at + length (scan_bytes (pairs_of pairs))) }
{
    for i in 0..pairs.count {
        lay_pair(buffer, at + 3 + 8 * i, pairs.keys[i], pairs.values[i]);
    }
    lay_scan_head(buffer, at, pairs.count);
    at + 3 + 8 * pairs.count
}
