// A node still to be visited, and a stack of them in bytes, which grows from its end downwards.
ghost use Rattle.std.specs.Prelude.{◌≡◌, ◌++◌, ◌+◌, ◌*◌, ◌≤◌, length, get_or, drop};
ghost use Rattle.std.proofs.Common.{lit≤};
ghost use Rattle.layout.specs.Layout.{due_bytes};
ghost use Rattle.node.specs.Value.{pairs_in, Sized};
ghost use Rattle.mount_tree.specs.Due as def;
ghost use Rattle.mount_tree.specs.Due.{dues_of, dues_of-is, no_due, no_due-is, children_of};

use layout::DUE_BYTES;
use node::NodeValue;
use node::search::{key, pointer};
use wire::number::{read32, write32};
use wire::record::{Bytewise, Record, write};

// A node due: its id, how deep the leaves stand below it, and the bound that its keys stay below.
#[derive(Clone, Copy, Debug, PartialEq, Eq)]
pub struct Due {
    pub id: u32,
    pub depth: u32,
    pub high: u64,
}

// A node due in sixteen bytes of the stack.
impl Record for Due {
    ghost BYTES = { due_bytes };

    const BYTES: usize = DUE_BYTES;

    ghost decoded = { def.decode };

    ghost table = { dues_of };

    ghost nothing = { no_due };

    #[tactic(auto, unfolding(crate::specs::Due::decode))]
    fn decode(part: &[u8]) -> Due {
        let upper = u64::from(read32(part, 8));
        let lower = u64::from(read32(part, 12));
        Due {
            id: read32(part, 0),
            depth: read32(part, 4),
            high: upper * 4294967296 + lower,
        }
    }

    // Its bytes are promised too, where the trait asks only that it reads back.
    fn encode(self, part: &mut [u8])
        requires { length part.old ≡ due_bytes }
        ensures bytes { part.new ≡ def.encode self }
        ensures back { def.decode part.new ≡ self }
    {
        write32(part, 0, self.id);
        write32(part, 4, self.depth);
        write32(part, 8, (self.high / 4294967296) as u32);
        write32(part, 12, (self.high % 4294967296) as u32);
    }

    ghost some_bytes = { lit≤ tt };

    ghost tabled = { dues_of-is };

    ghost behind = { no_due-is };
}

impl Bytewise for Due {
    ghost encoded = { def.encode };

    fn lay(self, part: &mut [u8]) {
        self.encode(part);
    }
}

// The child at a place of a branch: below the key beside it; the last one below the branch's own bound.
fn child_due(v: NodeValue, at: usize, depth: u32, high: u64) -> Due
    requires { (Sized v) × (at ≤ v.count) }
    ensures { result ≡ get_or (children_of depth (pairs_in v) v.link high) at no_due }
{
    let id = pointer(v, at);
    if at < v.count {
        let high = u64::from(key(v, at));
        return Due { id, depth, high };
    }
    Due { id, depth, high }
}

// The children of a branch laid in the slots from one on, in front of what stands behind them; from the last to the first.
pub fn push_children(stack: &mut [u8], base: usize, v: NodeValue, depth: u32, high: u64)
    requires { (Sized v) × (due_bytes * (base + v.count) + due_bytes ≤ length stack.old) }
    ensures { drop base (dues_of stack.new)
        ≡ children_of depth (pairs_in v) v.link high ++ drop (base + v.count + 1) (dues_of stack.old) }
{
    let mut left = v.count + 1;
    while 0 < left {
        left -= 1;
        write(stack, base + left, child_due(v, left, depth, high));
    }
}

#[cfg(test)]
mod tests;
