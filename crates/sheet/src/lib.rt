// The job sheet: its lines read in turn, and what they come to. specs/Read.antt says what `read` answers and leaves,
// specs/Meaning.antt what a line does.
#![tactic(auto)]

use answer::Refusal;

mod desk;
mod judge;
pub mod two;

ghost use Rattle.std.specs.Prelude.{◌≡◌, ◌≤◌, length, take};
ghost use Rattle.std.proofs.lemmas.List.Edits.{sets};
ghost use Rattle.answer.specs.Seen.{answered, seen};
ghost use Rattle.sheet.specs.Reading.{then_tested};
ghost use Rattle.sheet.specs.Desk.{Fit, meaning_for};
ghost use Rattle.sheet.specs.Read.{job_for, handed, ReadSays};

use crate::desk::{Desk, read_lines};
use crate::judge::judge;
use sheet_lines::Head;

// What a sheet says beside its coordinates and exclusions: the atoms, the box (edges, and which axes are periodic), the
// radius, and how many exclusions there are.
#[derive(Clone, Copy)]
pub struct Job {
    pub atoms: u32,
    pub ex: u32,
    pub ey: u32,
    pub ez: u32,
    pub px: bool,
    pub py: bool,
    pub pz: bool,
    pub radius: u32,
    pub count: u32,
}

fn job_of(head: Head, count: u32) -> Job
    ensures { result ≡ job_for head count }
{
    Job {
        atoms: head.atoms,
        ex: head.ex,
        ey: head.ey,
        ez: head.ez,
        px: head.mask % 2 == 1,
        py: head.mask / 2 % 2 == 1,
        pz: head.mask / 4 % 2 == 1,
        radius: head.radius,
        count,
    }
}

// The first n numbers of a table, into another. A loop, since `copy_from_slice` would have the library ask for `memmove`, and it asks for `memcpy` and `memset` alone.
fn copy_in(from: &[u32], to: &mut [u32], n: usize)
    requires { (n ≤ length from.now) × (n ≤ length to.old) }
    ensures { to.new ≡ sets to.old 0 (take n from.now) }
{
    for i in 0..n {
        to[i] = from[i];
    }
}

// The tests after the lines, and what is written where they pass.
fn settle(
    desk: Desk,
    coords: &[u32; 3072],
    marks: &[u8; 1024],
    table: &[u32; 2048],
    coordinates: &mut [u32],
    exclusions: &mut [u32],
) -> Result<Job, Refusal>
    requires { Fit desk.count table.now × (3072 ≤ length coordinates.old) × (2048 ≤ length exclusions.old) }
    ensures { record { shown = seen result; coordinates = coordinates.new; exclusions = exclusions.new } ≡ handed (then_tested (answered (meaning_for desk coords.now marks.now table.now))) coordinates.old exclusions.old }
{
    let head = judge(desk, marks)?;
    let atoms = head.atoms as usize;
    let count = desk.count;
    let rows = count as usize;
    copy_in(coords, coordinates, 3 * atoms);
    copy_in(table, exclusions, 2 * rows);
    Ok(job_of(head, count))
}

// A sheet's numbers, with the coordinates three an atom and the exclusions two a row in what is lent. A refusal touches
// nothing: the lines are read into tables of the call's own.
pub fn read(input: &[u8], coordinates: &mut [u32], exclusions: &mut [u32]) -> Result<Job, Refusal>
    ensures { ReadSays input.now coordinates.old exclusions.old result coordinates.new exclusions.new }
{
    if 65536 < input.len() {
        return Err(Refusal::Lengths);
    }
    if coordinates.len() < 3072 {
        return Err(Refusal::Lengths);
    }
    if exclusions.len() < 2048 {
        return Err(Refusal::Lengths);
    }
    let mut coords = [0u32; 3072];
    let mut seen = [0u8; 1024];
    let mut table = [0u32; 2048];
    let desk = read_lines(input, &mut coords, &mut seen, &mut table)?;
    settle(desk, &coords, &seen, &table, coordinates, exclusions)
}
