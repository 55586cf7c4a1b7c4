// A sheet of the second form (02, No. 9 and 10), read by the first form's own steps: its lines are told in the first form twice, with
// their coordinates and radius, and with their species and rule where these stand.
ghost use Rattle.std.specs.Prelude.{◌≡◌, [], map, ◌≤◌, ◌*◌, length};
ghost use Rattle.std.proofs.Math.Option.{none};
ghost use Rattle.std.proofs.lemmas.List.Edits.{sets};
ghost use Rattle.answer.specs.Seen.{answered, seen};
ghost use Rattle.sheet_lines_two.specs.Twos.{told_of, two_at, twos_of, width_two};
ghost use Rattle.sheet.specs.Reading.{run, then_tested};
ghost use Rattle.sheet.specs.Desk.{Fit, FitKept, shown_kept, meaning_for, rule_kept};
ghost use Rattle.sheet.specs.ReadTwo.{species_in, with_species, handed_two, ReadTwoSays};

use crate::desk::{Desk, read_by};
use crate::{Job, settle};
use answer::Refusal;
use sheet_lines::Line;
use sheet_lines_two::{told, two_at, width_two};

// What a sheet says, and its rule, 1 or 2: a number, as it stands in the file and in the struct for C.
#[derive(Drop)]
pub struct RuledJob {
    pub job: Job,
    pub rule: u32,
}

// The lines of the second form, told in the first: with their species and rule where `kinds`.
fn read_twos(
    s: &[u8],
    kinds: bool,
    coords: &mut [u32; 3072],
    seen: &mut [u8; 1024],
    table: &mut [u32; 2048],
) -> Result<Desk, Refusal>
    ensures table_after { shown_kept result coords.exit.now seen.new table.new ≡ run (map (told_of kinds) (twos_of s.now)) 0 (record { header = none; atoms = record { coords = coords.entry.now; marks = seen.old }; rows = [] }) }
    ensures fit_kept { FitKept result table.new }
{
    let line_from = |at: usize| -> (Line, usize)
        ensures { result ≡ (told_of kinds (two_at s.entry.now at), width_two (two_at s.entry.now at)) }
    {
        let two = two_at(s, at);
        (told(two, kinds), width_two(two))
    };
    read_by(s, line_from, coords, seen, table)
}

// The rule that was read with the species.
fn rule_kept(kinds: Result<Desk, Refusal>) -> u32
    ensures { result ≡ rule_kept kinds }
{
    let Ok(desk) = kinds else {
        return 1;
    };
    let Some(head) = desk.head else {
        return 1;
    };
    head.radius
}

// The species of the first n atoms, into another table.
fn copy_species(from: &[u32], to: &mut [u32], n: usize)
    requires { (3 * n ≤ length from.now) × (n ≤ length to.old) }
    ensures { to.new ≡ sets to.old 0 (species_in n from.now) }
{
    for i in 0..n {
        to[i] = from[3 * i];
    }
}

// The tests after the lines, and what is written where they pass.
fn settle_two(
    desk: Desk,
    coords: &[u32; 3072],
    marks: &[u8; 1024],
    table: &[u32; 2048],
    rule: u32,
    kinds: &[u32; 3072],
    coordinates: &mut [u32],
    species: &mut [u32],
    exclusions: &mut [u32],
) -> Result<RuledJob, Refusal>
    requires { Fit desk.count table.now × (3072 ≤ length coordinates.old) × (1024 ≤ length species.old) × (2048 ≤ length exclusions.old) }
    ensures { record { shown = seen result; coordinates = coordinates.new; species = species.new; exclusions = exclusions.new } ≡ handed_two (with_species (then_tested (answered (meaning_for desk coords.now marks.now table.now))) rule kinds.now) coordinates.old species.old exclusions.old }
{
    let job = settle(desk, coords, marks, table, coordinates, exclusions)?;
    copy_species(kinds, species, job.atoms as usize);
    Ok(RuledJob { job, rule })
}

// A second-form sheet's numbers, as `read` has them, with its rule, and the species one an atom. A refusal touches nothing.
pub fn read_two(
    input: &[u8],
    coordinates: &mut [u32],
    species: &mut [u32],
    exclusions: &mut [u32],
) -> Result<RuledJob, Refusal>
    ensures { ReadTwoSays input.now coordinates.old species.old exclusions.old result coordinates.new species.new exclusions.new }
{
    if 65536 < input.len() {
        return Err(Refusal::Lengths);
    }
    if coordinates.len() < 3072 {
        return Err(Refusal::Lengths);
    }
    if species.len() < 1024 {
        return Err(Refusal::Lengths);
    }
    if exclusions.len() < 2048 {
        return Err(Refusal::Lengths);
    }
    let mut kinds = [0u32; 3072];
    let mut seen = [0u8; 1024];
    let mut table = [0u32; 2048];
    let first = read_twos(input, true, &mut kinds, &mut seen, &mut table);
    first?;
    let mut coords = [0u32; 3072];
    seen = [0u8; 1024];
    table = [0u32; 2048];
    let desk = read_twos(input, false, &mut coords, &mut seen, &mut table)?;
    settle_two(
        desk,
        &coords,
        &seen,
        &table,
        rule_kept(first),
        &kinds,
        coordinates,
        species,
        exclusions,
    )
}
