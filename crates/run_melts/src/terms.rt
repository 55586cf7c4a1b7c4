// The numbers of the terms and of the list.
use crate::liquid;
use crate::liquid::{Form, Table};
use crate::parts::{front, part_mut};
use evaluate::{Molecule, Setting};
use neighbor::State;
use potentials::coulomb::Coulomb;
use potentials::{Bond, BondRows};
use potentials_angle::AngleRows;
use potentials_pair::{Lj, Mixing, SpeciesTables};
use replay_melts::works::{Given, Work};
use replay_words::filled;
use verlet::Thermostat;
use verlet_step::Pace;
use virial::Units;

pub(crate) fn units() -> Units {
    Units {
        force_to_accel: 0.009648533212331,
        kb_ev_per_k: 0.00008617333262,
        ke_coulomb: 14.3996454784936,
        ev_per_a3_to_gpa: 160.2176634,
    }
}

// Lennard-Jones for a species that the table lacks.
pub(crate) fn lj(shift: bool) -> Option<Lj> {
    Some(Lj {
        epsilon: 0.006,
        sigma: 3.1,
        cutoff: 6.0,
        shift,
        rule: Mixing::HalfSum,
    })
}

pub(crate) fn coulomb() -> Option<Coulomb> {
    Some(Coulomb { cutoff: 5.5 })
}

// For a bond past the tables' end.
pub(crate) fn bond() -> Option<Bond> {
    Some(Bond { k: 1.5, r0: 3.5 })
}

// The cubic cell goes with the shift, the tilted one with none.
pub(crate) fn setting(shift: bool, edge: f64) -> Setting {
    Setting {
        lj: lj(shift),
        coulomb: coulomb(),
        bond: bond(),
        angle: None,
        units: units(),
        cell: liquid::boxed(shift, edge),
    }
}

// The u32s of every run: two ids (of the three species the second is not there), the species of 16,385 atoms, bonds.
pub(crate) fn wholes() -> [u32; 38231] {
    let mut us = filled(0);
    us[0] = 1;
    us[1] = 3;
    liquid::tabulate(Table::Species, part_mut(&mut us, 2, 16387));
    liquid::tabulate(Table::Bonds, part_mut(&mut us, 16387, 38231));
    us
}

// The floats: the two ids' parameters, the first 300 bonds' own lengths and the first 200's own strengths, charges and masses of 16,385 atoms.
pub(crate) fn reals() -> [f64; 33274] {
    let mut fs = filled(0.0);
    fs[0] = 0.01;
    fs[1] = 3.0;
    fs[2] = 0.004;
    fs[3] = 3.3;
    liquid::fill(
        Form::Spread {
            low: 3.0,
            width: 1.0,
        },
        part_mut(&mut fs, 4, 304),
    );
    liquid::fill(
        Form::Spread {
            low: 1.0,
            width: 0.5,
        },
        part_mut(&mut fs, 304, 504),
    );
    liquid::fill(
        Form::Thirds {
            a: -0.5,
            b: 0.25,
            c: 0.25,
        },
        part_mut(&mut fs, 504, 16889),
    );
    liquid::fill(
        Form::Thirds {
            a: 16.0,
            b: 12.0,
            c: 14.0,
        },
        part_mut(&mut fs, 16889, 33274),
    );
    fs
}

// Near 300 K.
pub(crate) fn speeds() -> [f64; 49155] {
    let mut vs = filled(0.0);
    liquid::fill(
        Form::Spread {
            low: -0.0078125,
            width: 0.015625,
        },
        &mut vs,
    );
    vs
}

pub(crate) fn masses(fs: &[f64; 33274], atoms: usize) -> &[f64] {
    front(&fs[16889..], atoms)
}

pub(crate) fn pace() -> Pace {
    let thermostat = Some(Thermostat {
        target_k: 300.0,
        tau_fs: 100.0,
    });
    Pace {
        dt: 1.0,
        thermostat,
    }
}

// A call's arguments. The bonds are the exclusions.
pub(crate) fn given<'a>(
    work: Work,
    setting: Setting,
    state: State,
    potential: f64,
    atoms: usize,
    bonded: usize,
    us: &'a [u32; 38231],
    fs: &'a [f64; 33274],
) -> Given<'a> {
    let bonds = front(&us[16387..], bonded);
    Given {
        work,
        setting,
        state,
        potential,
        molecule: Molecule {
            tables: SpeciesTables {
                own_ids: &[],
                own_params: &[],
                ids: &us[..2],
                params: &fs[..4],
            },
            species: front(&us[2..16387], atoms),
            charges: front(&fs[504..16889], atoms),
            bonds: BondRows {
                ends: bonds,
                lengths: &fs[4..304],
                ks: &fs[304..504],
            },
            angles: AngleRows {
                corners: &[],
                per_angle: &[],
            },
        },
        masses: masses(fs, atoms),
        exclusions: bonds,
    }
}

pub(crate) fn list(cutoff: f64, skin: f64) -> State {
    State {
        cutoff,
        skin,
        pairs: 0,
        references: 0,
        checks: 0,
        fallback: false,
        builds: 0,
        built_in: None,
    }
}
