// What both frames' pair lists are made of: axes, cells, the half stencil, the sorted tables, the listing of candidates. The whole-number frame and
// the float frame differ in the cell of an atom and in the test of a pair, and in nothing here.
#![tactic(auto)]

pub mod kernel;
mod sorting;

ghost use Rattle.std.specs.Prelude.{◌≡◌};
ghost use Rattle.bins.specs.Sort.{cell_held, atoms_in, AtomsAskedSays};

use answer::Refusal;

// One axis of a grid: how many bins it has, and whether it is periodic. A grid has at most 32,768 cells, so sixteen bits hold a size.
#[derive(Clone, Copy)]
pub struct Axis {
    pub size: u16,
    pub round: bool,
}

#[derive(Clone, Copy)]
pub struct Grid {
    pub x: Axis,
    pub y: Axis,
    pub z: Axis,
}

#[derive(Clone, Copy)]
pub struct Cell {
    pub x: u16,
    pub y: u16,
    pub z: u16,
}

// How the pairs are to be found: all of them tried, by a grid, or not at all where it has too many cells. No `Option`, since there are two ways to have no
// grid, of which one is a failure.
#[derive(Drop)]
pub enum Plan {
    AllPairs,
    TooMany,
    Laid(Grid),
}

// Pairs found, and candidate distances evaluated.
#[derive(Clone, Copy)]
pub struct Tally {
    pub count: usize,
    pub checks: usize,
}

// Whether the tables have the cell: its two starts are there, in order, and within the items.
fn is_held(cell: usize, starts: &[u32], items: &[u32]) -> bool
    ensures { result ≡ cell_held cell starts.now items.now }
{
    if starts.len() < 2 {
        return false;
    }
    if starts.len() - 1 <= cell {
        return false;
    }
    (starts[cell] <= starts[cell + 1]) & (starts[cell + 1] as usize <= items.len())
}

// The atoms of a cell: the part of the lent items between two starts, without copying. Empty where `atoms_in_asked` refuses.
pub fn atoms_in<'a>(cell: usize, starts: &[u32], items: &'a [u32]) -> &'a [u32]
    ensures { result.now ≡ atoms_in cell starts.now items.now }
{
    if !is_held(cell, starts, items) {
        return &items[0..0];
    }
    let from = starts[cell] as usize;
    let to = starts[cell + 1] as usize;
    &items[from..to]
}

// Refusal 1 where the cell's starts are not there, or fall, or end past the items.
pub fn atoms_in_asked(cell: usize, starts: &[u32], items: &[u32]) -> Result<(), Refusal>
    ensures { AtomsAskedSays cell starts.now items.now result }
{
    if is_held(cell, starts, items) {
        return Ok(());
    }
    Err(Refusal::Lengths)
}
