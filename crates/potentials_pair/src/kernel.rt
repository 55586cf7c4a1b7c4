// What every term shares: a table's default, and when a pair is skipped.
ghost use Rattle.std.specs.Prelude.{◌≡◌, get_or};
ghost use Rattle.potentials_pair.specs.Pull.{skips};

// What stands at k, or `other` past the end: the Rust's `get(k).copied().unwrap_or(other)`.
pub fn table_at(table: &[f64], k: usize, other: f64) -> f64
    ensures { result ≡ get_or table.now k other }
{
    if k < table.len() {
        return table[k];
    }
    other
}

pub fn is_skipped(cutoff: f64, r2: f64) -> bool
    ensures { result ≡ skips cutoff r2 }
{
    (r2 > cutoff * cutoff) | (r2 < 1e-12)
}
