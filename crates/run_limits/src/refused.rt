// 16,385 atoms of each other call that takes atoms. A line a call: number, place, and a digest of the forces, or velocities, that were lent.
use crate::{floats, pair_lists, show, speeds};
use answer::Refusal;
use cell::Vec3;
use evaluate::{Molecule, Setting};
use potentials::coulomb::Coulomb;
use potentials::{Bond, BondRows};
use potentials_angle::AngleRows;
use potentials_pair::{Lj, Mixing, SpeciesTables};
use replay_words::filled;
use virial::Sum;

fn put_refused(r: Result<Sum, Refusal>, forces: &[f64]) {
    match r {
        Ok(sum) => {
            show::put(0);
            show::put(float::to_bits(sum.energy));
        }
        Err(why) => {
            show::put(why.number());
            show::put(why.place());
        }
    }
    show::end(floats::digest(forces));
}

fn nothing() -> Sum {
    virial::kernel::zero()
}

fn zeros(forces: &mut [f64]) {
    let r = virial::zeros(forces);
    put_refused(r, forces);
}

fn merge(added: &[f64], forces: &mut [f64]) {
    let r = virial::merge(nothing(), forces, nothing(), added);
    put_refused(r, forces);
}

fn add_pair_force(forces: &mut [f64]) {
    let d = Vec3 {
        x: 1.0,
        y: 1.0,
        z: 1.0,
    };
    let r = virial::add_pair_force(nothing(), forces, 0, 1, d, d);
    put_refused(r, forces);
}

fn pressure_tensor(velocities: &[f64], masses: &[f64]) {
    let none = [[0.0; 3]; 3];
    show::put_head(virial::pressure_tensor(speeds::ones(), 1.0, none, velocities, masses));
    show::end(floats::digest(velocities));
}

fn lj() -> Lj {
    Lj {
        epsilon: 1.0,
        sigma: 1.0,
        cutoff: 1.0,
        shift: false,
        rule: Mixing::HalfSum,
    }
}

fn bond() -> Bond {
    Bond { k: 1.0, r0: 1.0 }
}

fn no_tables() -> SpeciesTables<'static, 'static> {
    SpeciesTables {
        own_ids: &[],
        own_params: &[],
        ids: &[],
        params: &[],
    }
}

fn no_bonds() -> BondRows<'static> {
    BondRows {
        ends: &[],
        lengths: &[],
        ks: &[],
    }
}

fn lj_pairs(species: &[u32], xs: &[f64], forces: &mut [f64]) {
    let r = potentials_calls::lj_pairs(lj(), None, &no_tables(), species, xs, &[], forces);
    put_refused(r, forces);
}

fn lj_all(species: &[u32], xs: &[f64], forces: &mut [f64]) {
    let r = potentials_calls::lj_all(lj(), None, &no_tables(), species, xs, forces);
    put_refused(r, forces);
}

fn coulomb_pairs(charges: &[f64], xs: &[f64], forces: &mut [f64]) {
    let r = potentials_calls::coulomb_pairs(speeds::ones(), 1.0, None, charges, xs, &[], forces);
    put_refused(r, forces);
}

fn coulomb_all(charges: &[f64], xs: &[f64], forces: &mut [f64]) {
    let r = potentials_calls::coulomb_all(speeds::ones(), 1.0, None, charges, xs, forces);
    put_refused(r, forces);
}

fn bonds_all(xs: &[f64], forces: &mut [f64]) {
    let r = potentials_calls::bonds_all(bond(), None, &no_bonds(), xs, forces);
    put_refused(r, forces);
}

fn setting() -> Setting {
    Setting {
        lj: Some(lj()),
        coulomb: Some(Coulomb { cutoff: 1.0 }),
        bond: Some(bond()),
        angle: None,
        units: speeds::ones(),
        cell: None,
    }
}

fn evaluated<'a>(species: &'a [u32], charges: &'a [f64], xs: &[f64], forces: &mut [f64]) {
    let mut pairs = [0u32; 2];
    let mut refs: [f64; 49155] = filled(0.0);
    let mut starts = [0u32; 2];
    let mut items = [0u32; 16385];
    let molecule = Molecule {
        tables: no_tables(),
        species,
        charges,
        bonds: no_bonds(),
        angles: AngleRows {
            corners: &[],
            per_angle: &[],
        },
    };
    let e = evaluate::evaluate(
        setting(),
        pair_lists::list(1.0, 0.5),
        &molecule,
        xs,
        &[],
        &mut pairs,
        &mut refs,
        &mut starts,
        &mut items,
        forces,
    );
    show::put_head(e.done);
    show::end(floats::digest(forces));
}

fn sums(xs: &[f64], ones: &[f64]) {
    let mut forces: [f64; 49155] = filled(0.5);
    zeros(&mut forces);
    merge(xs, &mut forces);
    add_pair_force(&mut forces);
    pressure_tensor(xs, ones);
}

fn terms(species: &[u32], ones: &[f64], xs: &[f64]) {
    let mut forces: [f64; 49155] = filled(0.5);
    lj_pairs(species, xs, &mut forces);
    coulomb_pairs(ones, xs, &mut forces);
    bonds_all(xs, &mut forces);
    lj_all(species, xs, &mut forces);
    coulomb_all(ones, xs, &mut forces);
}

fn whole(species: &[u32], ones: &[f64], xs: &[f64]) {
    let mut forces: [f64; 49155] = filled(0.5);
    evaluated(species, ones, xs, &mut forces);
}

pub(crate) fn all() {
    let species = [1u32; 16385];
    let ones = [1.0; 16385];
    let xs: [f64; 49155] = filled(0.25);
    sums(&xs, &ones);
    terms(&species, &ones, &xs);
    whole(&species, &ones, &xs);
}
