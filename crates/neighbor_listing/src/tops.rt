// The highest partner of each low atom in the exclusion table: most near pairs are past it, and need no lookup; of the others most are that one.
ghost use Rattle.std.specs.Prelude.{◌≡◌, max, get_or, set};
ghost use Rattle.neighbor_listing.specs.Steps.{Tops, Cleared, clear_of, top_of, looked_in};

use crate::loops::higher;

fn raise(tops: &mut [u32], low: usize, high: u32)
    ensures { tops.new ≡ set tops.old low (max (get_or tops.old low 0) high) }
{
    if low < tops.len() {
        tops[low] = higher(tops[low], high);
    }
}

pub(crate) fn raise_all(table: &[u32], tops: &mut [u32])
    requires { Cleared tops.old }
    ensures { Tops table.now tops.new }
{
    for k in 0..table.len() / 2 {
        raise(tops, table[2 * k] as usize, table[2 * k + 1]);
    }
}

// Whether high is past low's highest partner.
fn is_clear(tops: &[u32], low: u32, high: u32) -> bool
    ensures { result ≡ clear_of tops.now low high }
{
    let a = low as usize;
    if a < tops.len() {
        return tops[a] < high;
    }
    false
}

// Whether high is low's highest partner.
fn is_top(tops: &[u32], low: u32, high: u32) -> bool
    ensures { result ≡ top_of tops.now low high }
{
    let a = low as usize;
    if a < tops.len() {
        return (tops[a] == high) & (0 < high);
    }
    false
}

pub(crate) fn is_excluded(table: &[u32], tops: &[u32], low: u32, high: u32) -> bool
    ensures { result ≡ looked_in tops.now table.now low high }
{
    if is_clear(tops, low, high) {
        return false;
    }
    if is_top(tops, low, high) {
        return true;
    }
    exclusions::kernel::excluded(table, low, high)
}
