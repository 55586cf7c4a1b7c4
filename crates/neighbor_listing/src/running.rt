// A run over the candidates: all pairs, or the grid's.
ghost use Rattle.std.specs.Prelude.{◌≡◌, true, false, ◌-◌, ◌/◌, ◌≤◌, ◌<◌, length};
ghost use Rattle.lists.specs.Lists.{rows, up_to};
ghost use Rattle.bins.specs.Listing.{laid_of};
ghost use Rattle.exclusions.specs.Table.{is_table};
ghost use Rattle.neighbor_grid.specs.Grid.{plain_of};
ghost use Rattle.neighbor_listing.specs.Found.{near_pairs, checks_of};
ghost use Rattle.neighbor_listing.specs.Listed.{shown_of};
ghost use Rattle.neighbor_listing.specs.Steps.{Gridded, BlankTops};

use crate::Listed;
use crate::loops::consider_home;
use crate::sight::sight_of;
use crate::sweep::sweep_all;
use crate::tops::raise_all;
use bins::{Grid, Tally};
use cell::Lattice;

// Nothing listed yet.
fn none() -> Tally
    ensures { result ≡ record { count = 0; checks = 0 } }
{
    Tally {
        count: 0,
        checks: 0,
    }
}

// What a run has found: the checks are the candidates, which it has counted, less the exclusion rows among them.
fn finish(t: Tally, excluded: u64, room: usize, fallback: bool) -> Listed
    requires { (t.count ≤ t.checks) × (excluded ≤ t.checks) × (t.checks < 4294967296) }
    ensures { result ≡ shown_of t.count (t.checks - excluded) room fallback }
{
    let count = t.count;
    let checks = bins_rules::checks_of(t.checks, excluded);
    if count <= room {
        return Listed::Found {
            pairs: count as u32,
            checks: checks as u32,
            fallback: fallback,
        };
    }
    Listed::Full { pairs: count }
}

// Room for the most atoms that there can be; in a function of its own, so that no proof writes out its numbers.
fn blank() -> [u32; 16384]
    ensures { length result ≡ 16384 }
{
    [0u32; 16384]
}

// .. of zeros, for the highest partners.
fn blank_tops() -> [u32; 16384]
    ensures { BlankTops result }
{
    [0u32; 16384]
}

// Each atom's number.
fn number(atoms: &mut [u32])
    requires { length atoms.old ≤ 16384 }
    ensures { atoms.new ≡ up_to (length atoms.old) }
{
    for (k, atom) in atoms.iter_mut().enumerate() {
        *atom = k as u32;
    }
}

// All pairs are those of one bin that has all atoms: the fallback goes by the loop of a home cell.
pub(crate) fn run_plain(
    cell: Option<Lattice>,
    radius: f64,
    xs: &[f64],
    table: &[u32],
    pairs: &mut [u32],
) -> Listed
    requires { (is_table (rows table.now) ≡ true) × (length xs.now / 3 ≤ 16384) × (plain_of cell radius xs.now ≡ true) }
    ensures value { result ≡ shown_of (length (near_pairs cell radius xs.now table.now)) (checks_of cell radius xs.now table.now) (length pairs.old / 2) true }
    ensures pairs_after { pairs.new ≡ laid_of pairs.old (near_pairs cell radius xs.now table.now) }
{
    let n = xs.len() / 3;
    let mut tops = blank_tops();
    raise_all(table, &mut tops[..n]);
    let mut atoms = blank();
    number(&mut atoms[..n]);
    let s = sight_of(cell, radius);
    let t = consider_home(s, xs, table, &tops[..n], pairs, none(), &atoms[..n]);
    let excluded = candidates::kernel::rows_below(table, n);
    finish(t, excluded, pairs.len() / 2, true)
}

pub(crate) fn run_grid(
    cell: Option<Lattice>,
    radius: f64,
    g: Grid,
    excluded: u64,
    xs: &[f64],
    table: &[u32],
    pairs: &mut [u32],
    starts: &[u32],
    items: &[u32],
) -> Listed
    requires table_value { (is_table (rows table.now) ≡ true) × (length xs.now / 3 ≤ 16384) }
    requires gridded { Gridded cell radius xs.now table.now g excluded starts.now items.now }
    ensures value { result ≡ shown_of (length (near_pairs cell radius xs.now table.now)) (checks_of cell radius xs.now table.now) (length pairs.old / 2) false }
    ensures pairs_after { pairs.new ≡ laid_of pairs.old (near_pairs cell radius xs.now table.now) }
{
    let n = xs.len() / 3;
    let mut tops = blank_tops();
    raise_all(table, &mut tops[..n]);
    let t = sweep_all(
        sight_of(cell, radius),
        g,
        xs,
        table,
        &tops[..n],
        pairs,
        starts,
        items,
        none(),
    );
    finish(t, excluded, pairs.len() / 2, false)
}
