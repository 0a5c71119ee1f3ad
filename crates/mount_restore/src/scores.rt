// "Scores below the limit", asked of the rows.
ghost use Rattle.std.specs.Prelude.{◌≡◌, ◌+◌, ◌*◌, ◌≤◌, length};
ghost use Rattle.laws.specs.Loops.{all_from};
ghost use Rattle.flash_rows.specs.Row.{row_bytes};
ghost use Rattle.flash_rows.specs.Worktable.{rows_at, rows_in};
ghost use Rattle.mount_restore.specs.Scores.{is_below};

use flash_rows::table::row_at;

// Whether the scores of all nodes are below a limit.
pub fn scores_below(table: &[u8], nodes: usize, limit: u64) -> bool
    requires { rows_at + row_bytes * nodes ≤ length table.now }
    ensures { result ≡ all_from (is_below limit (rows_in table.now)) nodes 0 }
{
    (0..nodes).all(|n| u64::from(row_at(table, n).score) < limit)
}
