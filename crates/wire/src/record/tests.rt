// A record need not tell all its bytes: it is read back as it was laid, and that is all that a table asks of it.
ghost use Rattle.std.specs.Prelude.{map, get_or};
ghost use Rattle.std.proofs.Common.{lit≤, refl};
ghost use Rattle.laws.specs.Chunks.{chunks};

use super::{Record, read, write};

// A byte, and behind it one that is left as it stood.
#[derive(Drop)]
struct Half {
    first: u8,
}

impl Record for Half {
    ghost BYTES = { 2 };

    const BYTES: usize = 2;

    ghost decoded = { λ part. record { first = get_or part 0 0 } };

    ghost table = { λ table. map (λ part. record { first = get_or part 0 0 }) (chunks 2 table) };

    ghost nothing = { record { first = 0 } };

    fn decode(part: &[u8]) -> Half {
        Half { first: part[0] }
    }

    fn encode(self, part: &mut [u8]) {
        part[0] = self.first;
    }

    ghost some_bytes = { lit≤ tt };

    ghost tabled = { λ table. refl };

    ghost behind = { refl };
}

#[test]
fn what_was_laid_reads_back(rt: HostRuntime) {
    let mut table = [1, 2, 3, 4];
    write(&mut table, 1, Half { first: 7 });
    assert_eq!(rt; table, [1, 2, 7, 4]);
    assert_eq!(rt; read::<Half>(&table, 1).first, 7);
}
