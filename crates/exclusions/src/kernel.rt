// The exclusion table as the frames ask it. No public call: every function is total on any table.
ghost use Rattle.std.specs.Prelude.{◌≡◌};
ghost use Rattle.lists.specs.Lists.{rows};
ghost use Rattle.exclusions.specs.Table.{is_table, looked_up};

use crate::table::{is_at, place_of};

// Refusal 5 does not apply: the rows are strictly ascending, each low before high.
pub fn is_table(table: &[u32]) -> bool
    ensures { result ≡ is_table (rows table.now) }
{
    crate::table::is_table(table, table.len() / 2)
}

// Whether the pair, low before high, is excluded: by halving, which in an exclusion table finds each row that is there.
pub fn excluded(table: &[u32], low: u32, high: u32) -> bool
    ensures { result ≡ looked_up table.now low high }
{
    let n = table.len() / 2;
    is_at(table, n, place_of(table, n, low, high), low, high)
}
