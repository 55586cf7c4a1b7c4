// The pair list of a float frame (neighbor.rs): its state, when it must be built anew, and the build. The public calls test and refuse; the list itself
// stands in what the caller lends. specs/Update.antt says what a build answers and leaves, specs/Listed.antt what that means.
#![tactic(auto)]

use answer::Refusal;
use cell::Lattice;

pub mod asked;
mod boxes;
pub mod kernel;
mod rebuild;
mod states;

ghost use Rattle.std.specs.Prelude.{◌≡◌};
ghost use Rattle.neighbor.specs.declared.Question.TheVariants.{Unasked, NeedsRebuild};
ghost use Rattle.neighbor.specs.State.{NewSays, RadiusSays, since_of};
ghost use Rattle.neighbor.specs.Rebuild.{NeedsSays, OutdatedSays};
ghost use Rattle.neighbor.specs.Update.{given, UpdateSays, listed_of, ListedSays};
ghost use Rattle.neighbor.specs.Listed.{UpdateLists};

// The settings of a list and what it claims of the lent memory: the pairs and references that stand there, the distances that the last build evaluated,
// whether it laid no grid, how many builds there were, and the cell of the last answered one, none where there is none and after pairs that did not fit. The
// counter comes round to zero.
#[derive(Clone, Copy)]
pub struct State {
    pub cutoff: f64,
    pub skin: f64,
    pub pairs: u32,
    pub references: u32,
    pub checks: u32,
    pub fallback: bool,
    pub builds: u32,
    pub built_in: Option<Lattice>,
}

// Which question is asked before a list is built: none, so that it is built (`build`); the Rust's (`maybe_build`); or also whether the cell is the one that it
// was built in (the evaluator).
#[derive(Drop)]
pub enum Question {
    Unasked,
    NeedsRebuild,
    Outdated,
}

// A list brought up to date, or why not; whether it was built anew; and its state, which comes back in every case.
#[derive(Drop)]
pub struct Updated {
    pub done: Result<(), Refusal>,
    pub rebuilt: bool,
    pub state: State,
}

// A list with the given interaction cutoff and Verlet skin; refusal 3.
pub fn new(cutoff: f64, skin: f64) -> Result<State, Refusal>
    ensures { NewSays cutoff skin result }
{
    if !neighbor_asked::asked::settings_ok(cutoff, skin) {
        return Err(Refusal::Range);
    }
    Ok(states::fresh(cutoff, skin))
}

// The search radius `cutoff + skin`; refusal 3.
pub fn search_radius(s: State) -> Result<f64, Refusal>
    ensures { RadiusSays s result }
{
    if !neighbor_asked::asked::settings_ok(s.cutoff, s.skin) {
        return Err(Refusal::Range);
    }
    Ok(states::radius(s))
}

// How many builds there were since an earlier reading of the counter.
pub fn builds_since(s: State, earlier: u32) -> u32
    ensures { result ≡ since_of s earlier }
{
    std::num::wrapping_sub_u32(s.builds, earlier)
}

// Whether the list must be built anew for these positions; refusals 1, 2, 6, 3.
pub fn needs_rebuild(
    s: State,
    cell: Option<Lattice>,
    positions: &[f64],
    references: &[f64],
) -> Result<bool, Refusal>
    ensures { NeedsSays s cell positions.now references.now result }
{
    if rebuild::is_at_rest(s, cell, positions, references) {
        return Ok(false);
    }
    asked::question(s, cell, positions, references)?;
    Ok(rebuild::needs(s, cell, positions, references))
}

// Whether the list must be built anew for these positions in this cell, also where the cell is not, bit for bit, the one that it was built in; refusals 1, 2, 6, 3.
pub fn outdated(
    s: State,
    cell: Option<Lattice>,
    positions: &[f64],
    references: &[f64],
) -> Result<bool, Refusal>
    ensures { OutdatedSays s cell positions.now references.now result }
{
    if rebuild::is_at_rest(s, cell, positions, references) {
        let remembered = s.built_in;
        return Ok(!boxes::is_same(remembered, cell));
    }
    asked::question(s, cell, positions, references)?;
    Ok(rebuild::outdated(s, cell, positions, references))
}

// The list built anew; refusals 1, 2, 6, 3, 5, 7, 8.
pub fn build(
    s: State,
    cell: Option<Lattice>,
    positions: &[f64],
    exclusions: &[u32],
    pairs: &mut [u32],
    references: &mut [f64],
    starts: &mut [u32],
    items: &mut [u32],
) -> Updated
    ensures says { UpdateSays Unasked (given s cell positions.now exclusions.now pairs.old references.old starts.old items.old) result pairs.new references.new starts.new items.new }
    ensures lists { UpdateLists (given s cell positions.now exclusions.now pairs.old references.old starts.old items.old) result pairs.new }
{
    let a = asked::asked(
        false,
        s,
        cell,
        positions,
        exclusions,
        pairs,
        references,
        items.len(),
    );
    if let Err(why) = a {
        return states::refused(s, why);
    }
    kernel::update(
        Question::Unasked,
        s,
        cell,
        positions,
        exclusions,
        pairs,
        references,
        starts,
        items,
    )
}

// The list built anew where it must be; refusals 1, 2, 6, 3, 4, 5, 7, 8.
pub fn maybe_build(
    s: State,
    cell: Option<Lattice>,
    positions: &[f64],
    exclusions: &[u32],
    pairs: &mut [u32],
    references: &mut [f64],
    starts: &mut [u32],
    items: &mut [u32],
) -> Updated
    ensures says { UpdateSays NeedsRebuild (given s cell positions.now exclusions.now pairs.old references.old starts.old items.old) result pairs.new references.new starts.new items.new }
    ensures lists { UpdateLists (given s cell positions.now exclusions.now pairs.old references.old starts.old items.old) result pairs.new }
{
    let a = asked::asked(
        true,
        s,
        cell,
        positions,
        exclusions,
        pairs,
        references,
        items.len(),
    );
    if let Err(why) = a {
        return states::refused(s, why);
    }
    kernel::update(
        Question::NeedsRebuild,
        s,
        cell,
        positions,
        exclusions,
        pairs,
        references,
        starts,
        items,
    )
}

// The listed pairs: the first part of the lent ones, without copying. Empty where `listed_asked` refuses.
pub fn listed<'a>(s: State, pairs: &'a [u32]) -> &'a [u32]
    ensures { result.now ≡ listed_of s pairs.now }
{
    let remembered = s.built_in;
    if asked::claims_more(remembered, s.pairs, pairs.len() / 2, 0, 0) {
        return &pairs[0..0];
    }
    &pairs[..2 * (s.pairs as usize)]
}

// Refusal 6 where the state claims more pairs than are lent, or remembers a cell out of range.
pub fn listed_asked(s: State, pairs: &[u32]) -> Result<(), Refusal>
    ensures { ListedSays s pairs.now result }
{
    let remembered = s.built_in;
    if asked::claims_more(remembered, s.pairs, pairs.len() / 2, 0, 0) {
        return Err(Refusal::Claims);
    }
    Ok(())
}
