// The tests of a state, of positions and of what is lent, in 01's order. Those that are `pub` are total and for the crates above.
ghost use Rattle.std.specs.Prelude.{◌≡◌, ◌*◌, take, if◌then◌else◌, ◌==◌, Ok};
ghost use Rattle.lists.specs.Lists.{every};
ghost use Rattle.ranges.specs.Ranged.{within};
ghost use Rattle.cell.specs.Ranged.{entry_limit};
ghost use Rattle.neighbor.specs.Rebuild.{claims_more, references_ok, ranges_ok, question_of};
ghost use Rattle.neighbor.specs.Update.{lengths_bad, first_of, kept_asked, table_asked, list_asked};
ghost use Rattle.neighbor_asked.specs.Asked.{first_refusal};

use crate::State;
use answer::Refusal;
use cell::{Lattice, ranged};

fn lengths_bad(positions: usize, exclusions: usize, references: usize, items: usize) -> bool
    ensures { result ≡ lengths_bad positions exclusions references items }
{
    (positions % 3 != 0)
        | (exclusions % 2 != 0)
        | (references < positions)
        | (items < positions / 3)
}

pub(crate) fn claims_more(
    remembered: Option<Lattice>,
    pairs: u32,
    rows: usize,
    references: u32,
    spots: usize,
) -> bool
    ensures { result ≡ claims_more remembered pairs rows references spots }
{
    (rows < pairs as usize) | (spots < references as usize) | !ranged::cell_in_range(remembered)
}

fn ranges_ok(s: State, cell: Option<Lattice>, xs: &[f64]) -> bool
    ensures { result ≡ ranges_ok s cell xs.now }
{
    if !(neighbor_asked::asked::settings_ok(s.cutoff, s.skin) & ranged::cell_in_range(cell)) {
        return false;
    }
    ranges::all_within(ranged::ENTRY, xs)
}

pub(crate) fn is_same(claimed: u32, n: usize) -> bool
    ensures { result ≡ (claimed == n) }
{
    claimed as usize == n
}

// Of the references, the first so many atoms'.
fn first_within(refs: &[f64], atoms: u32) -> bool
    ensures { result ≡ every (within entry_limit) (take (3 * atoms) refs.now) }
{
    let m = 3 * (atoms as usize);
    if refs.len() < m {
        return ranges::all_within(ranged::ENTRY, refs);
    }
    ranges::all_within(ranged::ENTRY, &refs[..m])
}

// The references that the state claims, where they are as many as the atoms.
fn references_ok(s: State, n: usize, refs: &[f64]) -> bool
    ensures { result ≡ references_ok s n refs.now }
{
    if !is_same(s.references, n) {
        return true;
    }
    first_within(refs, s.references)
}

// Refusals 1, 2, 6, 3 of `needs_rebuild` and `outdated`.
pub(crate) fn question(
    s: State,
    cell: Option<Lattice>,
    xs: &[f64],
    refs: &[f64],
) -> Result<(), Refusal>
    ensures { result ≡ question_of s cell xs.now refs.now }
{
    let n = xs.len() / 3;
    let remembered = s.built_in;
    let claims = claims_more(remembered, 0, 0, s.references, refs.len() / 3);
    let inside = ranges_ok(s, cell, xs) & references_ok(s, n, refs);
    neighbor_asked::asked::in_order(
        (xs.len() % 3 != 0) | (refs.len() < xs.len()),
        16384 < n,
        n,
        claims,
        !inside,
    )
}

// Refusals 1, 2, 6, 3 of a build: what is asked whether or not the list may be kept.
pub fn asked_first(
    s: State,
    cell: Option<Lattice>,
    xs: &[f64],
    table: usize,
    pairs: usize,
    refs: usize,
    items: usize,
) -> Result<(), Refusal>
    ensures { result ≡ first_of s cell xs.now table pairs refs items }
{
    let n = xs.len() / 3;
    let lengths = lengths_bad(xs.len(), table, refs, items);
    let remembered = s.built_in;
    let claims = claims_more(remembered, s.pairs, pairs / 2, s.references, refs / 3);
    let inside = ranges_ok(s, cell, xs);
    neighbor_asked::asked::in_order(lengths, 16384 < n, n, claims, !inside)
}

// Refusals 3 and 4 of a list that may be kept.
pub fn asked_kept(s: State, n: usize, pairs: &[u32], refs: &[f64]) -> Result<(), Refusal>
    ensures { result ≡ kept_asked s n pairs.now refs.now }
{
    if !references_ok(s, n, refs) {
        return Err(Refusal::Range);
    }
    let part = crate::listed(s, pairs);
    let row = ranges::rows::first_absent(part, n);
    if is_same(s.references, n) & (row < part.len() / 2) {
        return Err(Refusal::NotThere { row: row });
    }
    Ok(())
}

// Refusal 5.
pub fn asked_table(table: &[u32]) -> Result<(), Refusal>
    ensures { result ≡ table_asked table.now }
{
    if exclusions::kernel::is_table(table) {
        return Ok(());
    }
    Err(Refusal::Order)
}

// Refusals 3 and 4 of a list that may be kept; then 5.
fn asked_both(s: State, n: usize, table: &[u32], pairs: &[u32], refs: &[f64]) -> Result<(), Refusal>
    ensures { result ≡ first_refusal (kept_asked s n pairs.now refs.now) (table_asked table.now) }
{
    asked_kept(s, n, pairs, refs)?;
    asked_table(table)
}

// What is asked last, by whether the list may be kept.
fn asked_last(
    may: bool,
    s: State,
    n: usize,
    table: &[u32],
    pairs: &[u32],
    refs: &[f64],
) -> Result<(), Refusal>
    ensures { result ≡ first_refusal (if may then kept_asked s n pairs.now refs.now else (Ok tt)) (table_asked table.now) }
{
    if may {
        return asked_both(s, n, table, pairs, refs);
    }
    asked_table(table)
}

// Refusals 1, 2, 6, 3, 4, 5 of a build; `may` where it may keep the list.
pub(crate) fn asked(
    may: bool,
    s: State,
    cell: Option<Lattice>,
    xs: &[f64],
    table: &[u32],
    pairs: &[u32],
    refs: &[f64],
    items: usize,
) -> Result<(), Refusal>
    ensures { result ≡ list_asked may s cell xs.now table.now pairs.now refs.now items }
{
    asked_first(s, cell, xs, table.len(), pairs.len(), refs.len(), items)?;
    asked_last(may, s, xs.len() / 3, table, pairs, refs)
}
