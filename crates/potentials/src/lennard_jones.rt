// Lennard-Jones over a list. Its room has what 128 places have (specs/Blocks.antt) in one slice of places and one of floats.
ghost use Rattle.std.specs.Prelude.{◌≡◌, ◌+◌, ◌-◌, ◌/◌, ◌≤◌, ◌<◌, length, get_or};
ghost use mathlib.Core.List.{foldl};
ghost use Rattle.lists.specs.Lists.{up_to, rows};
ghost use Rattle.potentials_pair.specs.Species.{tables_of};
ghost use Rattle.potentials_pair.specs.Pull.{held};
ghost use Rattle.potentials.specs.Steps.{lj_step, NearBlock, Kept};
ghost use Rattle.potentials.specs.Blocks.{lj_energy_on, lj_slope_on, with_pull, Pulled, NumberedAt, Recalled};
ghost use Rattle.potentials.specs.Rows.{lj_rowed, NearPicked, RowsThere};

use crate::{block, kept, pairs, rows};
use cell_prepared::Prepared;
use potentials_pair::{Lj, Numbers, SpeciesTables};
use virial::Sum;

fn species_of(species: &[u32], i: usize) -> u32
    ensures { result ≡ get_or species.now i 0 }
{
    if i < species.len() {
        return species[i];
    }
    0
}

// Of n rows those that are near, their places in order, and their squared distances. How many they are.
fn keep(cutoff: f64, n: usize, ways: &[f64], atoms: &mut [usize], room: &mut [f64]) -> usize
    requires { (n ≤ 128) × (length ways.now ≡ 512) × NearBlock atoms.old room.old }
    ensures { NearPicked cutoff ways.now n atoms.old atoms.new room.old room.new result }
{
    let mut c = 0;
    for t in 0..n {
        let r2 = ways[384 + t];
        atoms[c] = t;
        room[c] = r2;
        let far = potentials_pair::kernel::is_skipped(cutoff, r2);
        c = block::taken(far, c);
    }
    c
}

// Depth, square and shift of place m, by the species of its atoms.
fn number_at(
    m: usize,
    n: usize,
    lj: Lj,
    tables: &SpeciesTables,
    species: &[u32],
    table: &[u32],
    from: usize,
    atoms: &mut [usize],
    room: &mut [f64],
)
    requires m_lt_n { (m < n) × RowsThere table.now from atoms.old n }
    requires kept { Kept lj (tables_of tables.now) atoms.old room.old }
    ensures { NumberedAt lj (tables_of tables.now) species.now table.now from atoms.old atoms.new room.old room.new m }
{
    let k = from + atoms[m];
    let y = species_of(species, pairs::first_of(table, k));
    let z = species_of(species, pairs::second_of(table, k));
    let r = kept::recall(tables, lj, y, z, atoms, room);
    room[128 + m] = r.depth;
    room[256 + m] = r.square;
    room[384 + m] = r.shift;
}

// .. of the first n places.
fn number_all(
    n: usize,
    lj: Lj,
    tables: &SpeciesTables,
    species: &[u32],
    table: &[u32],
    from: usize,
    atoms: &mut [usize],
    room: &mut [f64],
)
    requires rows_there { RowsThere table.now from atoms.old n }
    requires kept { Kept lj (tables_of tables.now) atoms.old room.old }
    ensures { Recalled lj (tables_of tables.now) species.now table.now from atoms.old atoms.new room.old room.new n }
{
    for m in 0..n {
        number_at(m, n, lj, tables, species, table, from, atoms, room);
    }
}

// Energy and slope of place m.
fn pull_at(m: usize, shift: bool, room: &[f64], pulls: &mut [f64])
    requires { (m < 128) × (length room.now ≡ 561) × (length pulls.old ≡ 256) }
    ensures { pulls.new ≡ with_pull (lj_energy_on shift room.now) (lj_slope_on room.now) pulls.old m }
{
    let n = Numbers {
        depth: room[128 + m],
        square: room[256 + m],
        shift: room[384 + m],
    };
    let r2 = room[m];
    pulls[2 * m] = potentials_pair::lennard_jones::energy(shift, n, r2);
    pulls[2 * m + 1] = potentials_pair::lennard_jones::slope(n, r2);
}

// .. of the first n places. No call is left in it and no branch: two places go in one instruction.
fn pull_all(n: usize, shift: bool, room: &[f64], pulls: &mut [f64])
    requires { (n ≤ 128) × (length room.now ≡ 561) × (length pulls.old ≡ 256) }
    ensures { Pulled (lj_energy_on shift room.now) (lj_slope_on room.now) pulls.new n }
{
    for m in 0..n {
        pull_at(m, shift, room, pulls);
    }
}

// What the rows from `from` up to `to` add.
pub(crate) fn add(
    lj: Lj,
    tables: &SpeciesTables,
    species: &[u32],
    table: &[u32],
    from: usize,
    to: usize,
    ways: &[f64],
    atoms: &mut [usize],
    room: &mut [f64],
    pulls: &mut [f64],
    forces: &mut [f64],
    sum: Sum,
) -> Sum
    requires from_le_to { (from ≤ to) × (to ≤ from + 128) × (to ≤ length table.now / 2) × (length ways.now ≡ 512) × (length pulls.old ≡ 256) }
    requires kept { Kept lj (tables_of tables.now) atoms.old room.old }
    ensures kept_2 { Kept lj (tables_of tables.now) atoms.new room.new }
    ensures forces_after { held result forces.new ≡ foldl (lj_rowed lj (tables_of tables.now) species.now table.now from ways.now) (held sum forces.old) (up_to (to - from)) }
{
    let n = keep(lj.cutoff, to - from, ways, atoms, room);
    number_all(n, lj, tables, species, table, from, atoms, room);
    pull_all(n, lj.shift, room, pulls);
    rows::add_all(n, table, from, atoms, ways, pulls, forces, sum)
}

// The rows of a list, a block after the other. `while`, since `block_end` says how far each turn goes: a `for` cannot jump.
fn by_blocks(
    lj: Lj,
    p: Prepared,
    tables: &SpeciesTables,
    species: &[u32],
    xs: &[f64],
    table: &[u32],
    ways: &mut [f64],
    atoms: &mut [usize],
    room: &mut [f64],
    pulls: &mut [f64],
    forces: &mut [f64],
    sum: Sum,
) -> Sum
    requires ways_len { (length ways.old ≡ 512) × (length pulls.old ≡ 256) }
    requires kept { Kept lj (tables_of tables.now) atoms.old room.old }
    ensures { held result forces.new ≡ foldl (lj_step lj p (tables_of tables.now) species.now xs.now) (held sum forces.old) (rows table.now) }
{
    let mut s = sum;
    let mut k = 0;
    let mut went = true;
    while k < table.len() / 2 {
        let to = block::block_end(k, table.len() / 2);
        went = rows::lay_rows(p, xs, table, k, to, ways, went);
        s = add(
            lj, tables, species, table, k, to, ways, atoms, room, pulls, forces, s,
        );
        k = to;
    }
    s
}

// The rows of a list, in order.
pub fn over(
    lj: Lj,
    p: Prepared,
    tables: &SpeciesTables,
    species: &[u32],
    xs: &[f64],
    table: &[u32],
    forces: &mut [f64],
    sum: Sum,
) -> Sum
    ensures { held result forces.new ≡ foldl (lj_step lj p (tables_of tables.now) species.now xs.now) (held sum forces.old) (rows table.now) }
{
    let mut ways = rows::blank_ways();
    let mut atoms = kept::blank_keys();
    let mut room = kept::first_room(tables, lj);
    let mut pulls = block::blank_two();
    by_blocks(
        lj, p, tables, species, xs, table, &mut ways, &mut atoms, &mut room, &mut pulls, forces,
        sum,
    )
}
