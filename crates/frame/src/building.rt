// A build that may go on: all pairs, or the grid's.
ghost use Rattle.answer.specs.Seen.{seen};
ghost use Rattle.std.specs.Prelude.{◌≡◌, true, false, ◌+◌, ◌-◌, ◌/◌, ◌≤◌, ◌<◌, length, Ok};
ghost use Rattle.lists.specs.Lists.{rows};
ghost use Rattle.bins.specs.Stencil.{cells};
ghost use Rattle.bins.specs.Listing.{laid_of};
ghost use Rattle.exclusions.specs.Table.{is_table};
ghost use Rattle.frame.specs.Laying.{plain_of};
ghost use Rattle.frame.specs.Build.{near_pairs, checks_of, shown_of, starts_laid, items_laid, given, after_of};
ghost use Rattle.frame.specs.Steps.{Framed, Gridded};

use crate::laying::{lay, plan_of};
use crate::listing::consider_all;
use crate::sweep::sweep_all;
use crate::{Built, Frame};
use answer::Refusal;
use bins::{Grid, Plan, Tally};

// What a run has found: the checks are the candidates, which it has counted, less the exclusion rows among them.
fn finish(t: Tally, excluded: u64, room: usize, fallback: bool) -> Result<Built, Refusal>
    requires { (t.count + excluded ≤ t.checks) × (t.checks < 4294967296) }
    ensures { seen result ≡ shown_of t.count (t.checks - excluded) room fallback }
{
    let count = t.count;
    let checks = bins_rules::checks_of(t.checks, excluded);
    if count <= room {
        return Ok(Built {
            pairs: count as u32,
            checks: checks as u32,
            fallback: fallback,
        });
    }
    Err(Refusal::Room { count: count })
}

fn run_plain(f: Frame, xs: &[u32], table: &[u32], pairs: &mut [u32]) -> Result<Built, Refusal>
    requires framed { Framed f xs.now × (is_table (rows table.now) ≡ true) }
    requires xs_len_bound { (length xs.now / 3 ≤ 16384) × (plain_of f ≡ true) }
    ensures result_value { seen result ≡ shown_of (length (near_pairs f xs.now table.now)) (checks_of f xs.now table.now) (length pairs.old / 2) true }
    ensures pairs_after { pairs.new ≡ laid_of pairs.old (near_pairs f xs.now table.now) }
{
    let n = (xs.len() / 3) as u32;
    let t = consider_all(
        f,
        xs,
        table,
        pairs,
        Tally {
            count: 0,
            checks: 0,
        },
        n,
    );
    let excluded = candidates::kernel::rows_below(table, n as usize);
    finish(t, excluded, pairs.len() / 2, true)
}

fn run_grid(
    f: Frame,
    g: Grid,
    xs: &[u32],
    table: &[u32],
    pairs: &mut [u32],
    starts: &mut [u32],
    items: &mut [u32],
) -> Result<Built, Refusal>
    requires framed { Framed f xs.now × (is_table (rows table.now) ≡ true) }
    requires gridded { Gridded f g }
    requires xs_len_bound { (length xs.now / 3 ≤ 16384) × (cells g < length starts.old) × (length xs.now / 3 ≤ length items.old) }
    ensures result_value { seen result ≡ shown_of (length (near_pairs f xs.now table.now)) (checks_of f xs.now table.now) (length pairs.old / 2) false }
    ensures pairs_after { pairs.new ≡ laid_of pairs.old (near_pairs f xs.now table.now) }
    ensures starts_after { starts.new ≡ starts_laid f xs.now starts.old }
    ensures after { items.new ≡ items_laid f xs.now items.old }
{
    let excluded = lay(f, g, xs, table, starts, items);
    let t = sweep_all(
        f,
        g,
        xs,
        table,
        pairs,
        starts,
        items,
        Tally {
            count: 0,
            checks: 0,
        },
    );
    finish(t, excluded, pairs.len() / 2, false)
}

// A build whose tests have passed, of two atoms or more.
pub(crate) fn run(
    f: Frame,
    xs: &[u32],
    table: &[u32],
    pairs: &mut [u32],
    starts: &mut [u32],
    items: &mut [u32],
) -> Result<Built, Refusal>
    requires framed { Framed f xs.now × (is_table (rows table.now) ≡ true) }
    requires in_bounds { (2 ≤ length xs.now / 3) × (length xs.now / 3 ≤ 16384) × (length xs.now / 3 ≤ length items.old) }
    ensures { record { answer = seen result; pairs = pairs.new; starts = starts.new; items = items.new } ≡ after_of (given f xs.now table.now pairs.old starts.old items.old) (Ok tt) }
{
    let p = plan_of(f, starts.len());
    match p {
        Plan::AllPairs => run_plain(f, xs, table, pairs),
        Plan::TooMany => Err(Refusal::Cells),
        Plan::Laid(g) => run_grid(f, g, xs, table, pairs, starts, items),
    }
}
