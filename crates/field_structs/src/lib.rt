// What crosses the boundary to C: structs of numbers in place of enums and flags. An answer holds a refusal's number and place (0 and 0 where it is
// answered) and the values, zeros where there are none; a flag is read as C does, set where it is not 0, and handed back as 0 or 1. specs/Flat.antt says
// which answer each struct stands for, specs/Taken.antt which argument. `From` turns an answer into its struct (`give`) and a struct into
// an argument (`take`); a `Default` is all zeros.
#![tactic(auto)]

use cell::{Rows, Vec3};
use potentials::Bond;
use potentials_angle::Angle;
use strike::Left;
use virial::{Sum, Units};

mod angles;
mod give;
mod give_counted;
mod give_forms;
mod settlings;
mod strikes;
pub mod take;

// ---- arguments

// The three lattice vectors, and which axes are periodic (flags).
#[repr(C)]
#[derive(Drop)]
pub struct FlatLattice {
    pub a: Vec3,
    pub b: Vec3,
    pub c: Vec3,
    pub px: u32,
    pub py: u32,
    pub pz: u32,
}

// No cell (present 0), or a lattice (present not 0).
#[repr(C)]
#[derive(Default, Drop)]
pub struct FlatCell {
    pub present: u32,
    pub lattice: FlatLattice,
}

// The settings of a pair list and what it claims of the lent memory; fallback is a flag. built_in is the cell of its last answered build, not present where
// there is none. What a call hands back goes into the next one.
#[repr(C)]
#[derive(Default, Drop)]
pub struct FlatState {
    pub cutoff: f64,
    pub skin: f64,
    pub pairs: u32,
    pub references: u32,
    pub checks: u32,
    pub fallback: u32,
    pub builds: u32,
    pub built_in: FlatCell,
}

// Lennard-Jones numbers; epsilon and sigma are those of a species that the table lacks, shift is a flag, rule mixes
// sigmas: 1 by the half sum, 2 by the root of the product; another number is out of range (3).
#[repr(C)]
#[derive(Default, Drop)]
pub struct FlatLj {
    pub epsilon: f64,
    pub sigma: f64,
    pub cutoff: f64,
    pub shift: u32,
    pub rule: u32,
}

// No Lennard-Jones term (present 0), or one (present not 0).
#[repr(C)]
#[derive(Drop)]
pub struct FlatLjTerm {
    pub present: u32,
    pub lj: FlatLj,
}

// No Coulomb term (present 0), or one (present not 0).
#[repr(C)]
#[derive(Drop)]
pub struct FlatCoulombTerm {
    pub present: u32,
    pub cutoff: f64,
}

// No bonds (present 0), or bonds (present not 0).
#[repr(C)]
#[derive(Drop)]
pub struct FlatBondTerm {
    pub present: u32,
    pub bond: Bond,
}

// No angles (present 0), or angles (present not 0).
#[repr(C)]
#[derive(Drop)]
pub struct FlatAngleTerm {
    pub present: u32,
    pub angle: Angle,
}

// No thermostat (present 0), or Berendsen's (present not 0).
#[repr(C)]
#[derive(Drop)]
pub struct FlatThermostat {
    pub present: u32,
    pub target_k: f64,
    pub tau_fs: f64,
}

// What an evaluation goes by besides its tables: the terms, the units, and the cell.
#[repr(C)]
#[derive(Drop)]
pub struct FlatSetting {
    pub lj: FlatLjTerm,
    pub coulomb: FlatCoulombTerm,
    pub bond: FlatBondTerm,
    pub angle: FlatAngleTerm,
    pub units: Units,
    pub cell: FlatCell,
}

// How a step goes on in time.
#[repr(C)]
#[derive(Drop)]
pub struct FlatPace {
    pub dt: f64,
    pub thermostat: FlatThermostat,
}

// How a box is settled: most iterations (at most 100,000), the force tolerance on the largest component, the first time step and the largest.
#[repr(C)]
#[derive(Drop)]
pub struct FlatFireOptions {
    pub max_iters: u32,
    pub force_tol: f64,
    pub dt: f64,
    pub dt_max: f64,
}

// A whole-number frame: its edges, which axes are periodic (flags), and the radius, at most half of each periodic edge.
#[repr(C)]
#[derive(Drop)]
pub struct FlatFrame {
    pub ex: u32,
    pub ey: u32,
    pub ez: u32,
    pub px: u32,
    pub py: u32,
    pub pz: u32,
    pub radius: u32,
}

// ---- answers

// Answered (number 0, place 0), or a refusal's number and place.
#[repr(C)]
#[derive(Default, Drop)]
pub struct FlatDone {
    pub number: u64,
    pub place: u64,
}

// A float.
#[repr(C)]
#[derive(Drop)]
pub struct FlatNumber {
    pub done: FlatDone,
    pub value: f64,
}

// A flag.
#[repr(C)]
#[derive(Drop)]
pub struct FlatYesNo {
    pub done: FlatDone,
    pub value: u32,
}

// A whole number.
#[repr(C)]
#[derive(Drop)]
pub struct FlatWhole {
    pub done: FlatDone,
    pub value: u64,
}

// Three floats.
#[repr(C)]
#[derive(Drop)]
pub struct FlatVector {
    pub done: FlatDone,
    pub value: Vec3,
}

#[repr(C)]
#[derive(Drop)]
pub struct FlatLatticeAnswer {
    pub done: FlatDone,
    pub lattice: FlatLattice,
}

// The minimum image, and how many boxes it took off on each axis where kind is 0; kind 1: a count that is no int32_t, 2: no inverse, and zeros then.
#[repr(C)]
#[derive(Drop)]
pub struct FlatImage {
    pub diff: Vec3,
    pub kind: u32,
    pub x: i32,
    pub y: i32,
    pub z: i32,
}

#[repr(C)]
#[derive(Drop)]
pub struct FlatImageAnswer {
    pub done: FlatDone,
    pub image: FlatImage,
}

// Three rows of three floats.
#[repr(C)]
#[derive(Drop)]
pub struct FlatRowsAnswer {
    pub done: FlatDone,
    pub rows: Rows,
}

// Whether there is an inverse (a flag), and its rows.
#[repr(C)]
#[derive(Drop)]
pub struct FlatInverseAnswer {
    pub done: FlatDone,
    pub found: u32,
    pub rows: Rows,
}

// Energy and virial; the forces stand in what was lent.
#[repr(C)]
#[derive(Drop)]
pub struct FlatSummed {
    pub done: FlatDone,
    pub sum: Sum,
}

// A new list's state.
#[repr(C)]
#[derive(Drop)]
pub struct FlatStateAnswer {
    pub done: FlatDone,
    pub state: FlatState,
}

// Whether the list was built anew (a flag), and its state, which comes back in every case.
#[repr(C)]
#[derive(Drop)]
pub struct FlatUpdated {
    pub done: FlatDone,
    pub rebuilt: u32,
    pub state: FlatState,
}

// The pairs stored, the distances evaluated, and whether no grid was laid (a flag).
#[repr(C)]
#[derive(Default, Drop)]
pub struct FlatBuilt {
    pub done: FlatDone,
    pub pairs: u32,
    pub checks: u32,
    pub fallback: u32,
}

#[repr(C)]
#[derive(Drop)]
pub struct FlatLjAnswer {
    pub done: FlatDone,
    pub lj: FlatLj,
}

#[repr(C)]
#[derive(Drop)]
pub struct FlatBondAnswer {
    pub done: FlatDone,
    pub bond: Bond,
}

#[repr(C)]
#[derive(Drop)]
pub struct FlatAngleAnswer {
    pub done: FlatDone,
    pub angle: Angle,
}

// Whether the list was built anew (a flag), its state, which comes back in every case, and energy and virial; the forces stand in what was lent.
#[repr(C)]
#[derive(Drop)]
pub struct FlatEvaluated {
    pub done: FlatDone,
    pub rebuilt: u32,
    pub state: FlatState,
    pub sum: Sum,
}

// Whether a 7 or 8 stopped the step after the drift and whether the list was built anew (flags); the list's state and the potential, which come back in
// every case.
#[repr(C)]
#[derive(Drop)]
pub struct FlatStepped {
    pub done: FlatDone,
    pub stopped: u32,
    pub rebuilt: u32,
    pub state: FlatState,
    pub potential: f64,
}

// The iterations, or the one that was refused; whether a 7 or 8 stopped it after a drift and whether the tolerance was reached (flags); energy and largest force
// component of the last evaluation that was answered, zero where there was none; the list's state, which comes back in every case.
#[repr(C)]
#[derive(Drop)]
pub struct FlatFired {
    pub done: FlatDone,
    pub iteration: u32,
    pub stopped: u32,
    pub converged: u32,
    pub energy: f64,
    pub max_force: f64,
    pub state: FlatState,
}

// How many rows of each table are left, zeros where refused; and the list's state, which comes back in every case.
#[repr(C)]
#[derive(Drop)]
pub struct FlatStruck {
    pub done: FlatDone,
    pub left: Left,
    pub state: FlatState,
}

// How many atoms there are now; and the list's state, which comes back in every case.
#[repr(C)]
#[derive(Drop)]
pub struct FlatEntered {
    pub done: FlatDone,
    pub count: u32,
    pub state: FlatState,
}

// What a job sheet says beside its coordinates and exclusions; px, py, pz are flags.
#[repr(C)]
#[derive(Default, Drop)]
pub struct FlatJob {
    pub atoms: u32,
    pub ex: u32,
    pub ey: u32,
    pub ez: u32,
    pub px: u32,
    pub py: u32,
    pub pz: u32,
    pub radius: u32,
    pub count: u32,
}

#[repr(C)]
#[derive(Drop)]
pub struct FlatSheet {
    pub done: FlatDone,
    pub job: FlatJob,
}

// What a job sheet of either form says; form is that of its header, 1 or 2, rule its mixing rule, 1 or 2.
#[repr(C)]
#[derive(Default, Drop)]
pub struct FlatFormed {
    pub done: FlatDone,
    pub job: FlatJob,
    pub form: u32,
    pub rule: u32,
}

// A part of a lent table, by its first element and its length; 0 and 0 where the call is refused.
#[repr(C)]
#[derive(Drop)]
pub struct FlatPart {
    pub done: FlatDone,
    pub start: usize,
    pub length: usize,
}

// A species' row: the table that it is a part of (0 none, 1 a desk's own, 2 the house's), its epsilon and its sigma; zeros where there is none.
#[repr(C)]
#[derive(Drop)]
pub struct FlatRow {
    pub done: FlatDone,
    pub table: u32,
    pub epsilon: f64,
    pub sigma: f64,
}
