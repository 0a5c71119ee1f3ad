// Whether a pair fits a node.
ghost use Rattle.std.specs.Prelude.{◌≡◌};
ghost use Rattle.node.specs.Value.{pairs_in, Held};
ghost use Rattle.node.specs.Fit.{fit_of};

use super::NodeValue;
use super::search::find;
use layout::MOST_KEYS;

// Whether a pair of this key fits the node, which has the key or has room for it; else the place of a new key in a
// full node.
pub fn fit(v: NodeValue, key: u32) -> Result<(), usize>
    requires { Held v }
    ensures { result ≡ fit_of key (pairs_in v) }
{
    match find(v, key) {
        Err(at) if MOST_KEYS <= v.count => Err(at),
        _ => Ok(()),
    }
}
