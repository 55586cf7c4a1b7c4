// The numbers of two species, remembered: 16 rows, each of a key, so that a root is taken once for two species and not once for two atoms. They lie in
// Lennard-Jones's room, behind what its 128 places have: a slice fewer in each call.
ghost use Rattle.std.specs.Prelude.{◌≡◌, ◌+◌, ◌*◌, ◌^◌, length};
ghost use Rattle.potentials_pair.specs.Species.{tables_of};
ghost use Rattle.potentials.specs.Steps.{numbers_for, slot_of, Kept, Renewed, BlankKeys, FirstRow};

use potentials_pair::{Lj, Numbers, SpeciesTables};

fn numbers_for(tables: &SpeciesTables, lj: Lj, y: u32, z: u32) -> Numbers
    ensures { result ≡ numbers_for lj (tables_of tables.now) y z }
{
    let m = potentials_pair::species::mixed(tables, lj, y, z);
    potentials_pair::lennard_jones::numbers_of(lj, m)
}

fn key_of(y: u32, z: u32) -> usize
    ensures { result ≡ y * 2 ^ 32 + z }
{
    (y as usize) * 4294967296 + (z as usize)
}

// Any row would do; two keys of one row cost time only.
fn slot_of(y: u32, z: u32) -> usize
    ensures { result ≡ slot_of y z }
{
    (y % 4 * 4 + z % 4) as usize
}

// Atoms and keys of 0, in a function of its own, so that no proof writes out their numbers.
pub(crate) fn blank_keys() -> [usize; 144]
    ensures { BlankKeys result }
{
    [0usize; 144]
}

fn blank_room() -> [f64; 561]
    ensures { length result ≡ 561 }
{
    [0.0; 561]
}

// A room whose row 0 is right. No other row can have the key 0.
pub(crate) fn first_room(tables: &SpeciesTables, lj: Lj) -> [f64; 561]
    ensures { FirstRow lj (tables_of tables.now) result }
{
    let n = numbers_for(tables, lj, 0, 0);
    let mut room = blank_room();
    room[513] = n.depth;
    room[514] = n.square;
    room[515] = n.shift;
    room
}

// Row s made anew for y and z.
fn renew(
    tables: &SpeciesTables,
    lj: Lj,
    y: u32,
    z: u32,
    s: usize,
    atoms: &mut [usize],
    room: &mut [f64],
) -> Numbers
    requires s_value { s ≡ slot_of y z }
    requires kept { Kept lj (tables_of tables.now) atoms.old room.old }
    ensures value { result ≡ numbers_for lj (tables_of tables.now) y z }
    ensures renewed { Renewed lj (tables_of tables.now) atoms.old atoms.new room.old room.new }
{
    let n = numbers_for(tables, lj, y, z);
    let k = 3 * (171 + s);
    atoms[128 + s] = key_of(y, z);
    room[k] = n.depth;
    room[k + 1] = n.square;
    room[k + 2] = n.shift;
    n
}

pub(crate) fn recall(
    tables: &SpeciesTables,
    lj: Lj,
    y: u32,
    z: u32,
    atoms: &mut [usize],
    room: &mut [f64],
) -> Numbers
    requires { Kept lj (tables_of tables.now) atoms.old room.old }
    ensures value { result ≡ numbers_for lj (tables_of tables.now) y z }
    ensures renewed { Renewed lj (tables_of tables.now) atoms.old atoms.new room.old room.new }
{
    let s = slot_of(y, z);
    if atoms[128 + s] == key_of(y, z) {
        let k = 3 * (171 + s);
        return Numbers {
            depth: room[k],
            square: room[k + 1],
            shift: room[k + 2],
        };
    }
    renew(tables, lj, y, z, s, atoms, room)
}
