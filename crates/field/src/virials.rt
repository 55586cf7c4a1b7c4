// Energy, forces and virial, and the pressures that they feed (virial.rs).
ghost use Rattle.field_structs.specs.Flat.{flat_number, flat_rows, flat_summed};
ghost use Rattle.field_structs.specs.Shown.{Shown};
ghost use Rattle.field_structs.specs.Taken.{rows_table};
ghost use Rattle.virial.specs.Calls.{AddPairForceSays, MergeSays, PressureSays, PressureTensorSays, ScalarVirialSays, ToGpaSays, VirialFromPairSays, ZerosSays};

use cell::{Rows, Vec3};
use field_structs::{FlatNumber, FlatRowsAnswer, FlatSummed, take};
use virial::{Sum, Units};

// A sum of zeros, the forces all +0. Refusals 1, 2.
#[unsafe(no_mangle)]
pub extern "C" fn tyn_zeros(forces: &mut [f64]) -> FlatSummed
    ensures { Shown flat_summed (λ a. ZerosSays forces.old a forces.new) result }
{
    virial::zeros(forces).into()
}

// The sum and the forces with the other ones added; added are the forces of other. Refusals 1, 2, 3.
#[unsafe(no_mangle)]
pub extern "C" fn tyn_merge(sum: Sum, forces: &mut [f64], other: Sum, added: &[f64]) -> FlatSummed
    ensures { Shown flat_summed (λ a. MergeSays sum forces.old other added.now a forces.new) result }
{
    virial::merge(sum, forces, other, added).into()
}

// The sum with the pair added: f on atom i and -f on atom j, d apart. Refusals 1, 2, 3, 4.
#[unsafe(no_mangle)]
pub extern "C" fn tyn_add_pair_force(
    sum: Sum,
    forces: &mut [f64],
    i: u32,
    j: u32,
    d: Vec3,
    f: Vec3,
) -> FlatSummed
    ensures { Shown flat_summed (λ a. AddPairForceSays sum forces.old i j d f a forces.new) result }
{
    virial::add_pair_force(sum, forces, i, j, d, f).into()
}

// The virial with the pair added. Refusal 3.
#[unsafe(no_mangle)]
pub extern "C" fn tyn_virial_from_pair(virial: Rows, d: Vec3, f: Vec3) -> FlatRowsAnswer
    ensures { Shown flat_rows (VirialFromPairSays (rows_table virial) d f) result }
{
    virial::virial_from_pair(take::rows(virial), d, f).into()
}

// The trace of the virial. Refusal 3.
#[unsafe(no_mangle)]
pub extern "C" fn tyn_scalar_virial(virial: Rows) -> FlatNumber
    ensures { Shown flat_number (ScalarVirialSays (rows_table virial)) result }
{
    virial::scalar_virial(take::rows(virial)).into()
}

// The pressure of a kinetic energy and a scalar virial in a volume. Refusal 3.
#[unsafe(no_mangle)]
pub extern "C" fn tyn_pressure(kinetic: f64, scalar: f64, volume: f64) -> FlatNumber
    ensures { Shown flat_number (PressureSays kinetic scalar volume) result }
{
    virial::pressure(kinetic, scalar, volume).into()
}

// The pressure tensor. Refusals 1, 2, 3.
#[unsafe(no_mangle)]
pub extern "C" fn tyn_pressure_tensor(
    units: Units,
    volume: f64,
    virial: Rows,
    velocities: &[f64],
    masses: &[f64],
) -> FlatRowsAnswer
    ensures { Shown flat_rows (PressureTensorSays units volume (rows_table virial) velocities.now masses.now) result }
{
    virial::pressure_tensor(units, volume, take::rows(virial), velocities, masses).into()
}

// A pressure in gigapascal. Refusal 3.
#[unsafe(no_mangle)]
pub extern "C" fn tyn_to_gpa(units: Units, pressure: f64) -> FlatNumber
    ensures { Shown flat_number (ToGpaSays units pressure) result }
{
    virial::to_gpa(units, pressure).into()
}
