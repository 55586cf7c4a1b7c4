// The argument that a struct stands for. A flag is read as C does: set where it is not 0.
#![tactic(auto, unfolding(crate::specs::Taken::lattice_of, crate::specs::Taken::cell_of, crate::specs::Taken::state_of, crate::specs::Taken::ruled_of, crate::specs::Taken::mixing_of, crate::specs::Taken::lj_of, crate::specs::Taken::lj_term_of, crate::specs::Taken::coulomb_term_of, crate::specs::Taken::bond_term_of, crate::specs::Taken::thermostat_of, crate::specs::Taken::setting_of, crate::specs::Taken::pace_of, crate::specs::Taken::frame_of))]

ghost use Rattle.std.specs.Prelude.{◌≡◌};
ghost use Rattle.field_structs.specs.Taken.{lattice_of, cell_of, state_of, ruled_of, mixing_of, lj_of, lj_term_of, coulomb_term_of, bond_term_of, thermostat_of, setting_of, pace_of, frame_of, rows_table};

use crate::{
    FlatBondTerm, FlatCell, FlatCoulombTerm, FlatFrame, FlatLattice, FlatLj, FlatLjTerm, FlatPace,
    FlatSetting, FlatState, FlatThermostat,
};
use cell::{Lattice, Rows};
use evaluate::Setting;
use frame::{Frame, Side};
use neighbor::State;
use potentials::Bond;
use potentials::coulomb::Coulomb;
use potentials_pair::{Lj, Mixing};
use verlet::Thermostat;
use verlet_step::Pace;

impl From<FlatLattice> for Lattice {
    ghost from_gives = { λ l r. r ≡ lattice_of l };

    fn from(l: FlatLattice) -> Lattice {
        Lattice {
            a: l.a,
            b: l.b,
            c: l.c,
            px: l.px != 0,
            py: l.py != 0,
            pz: l.pz != 0,
        }
    }
}

impl From<FlatCell> for Option<Lattice> {
    ghost from_gives = { λ cell r. r ≡ cell_of cell };

    fn from(cell: FlatCell) -> Option<Lattice> {
        if cell.present != 0 {
            Some(cell.lattice.into())
        } else {
            None
        }
    }
}

impl From<FlatState> for State {
    ghost from_gives = { λ s r. r ≡ state_of s };

    fn from(s: FlatState) -> State {
        State {
            cutoff: s.cutoff,
            skin: s.skin,
            pairs: s.pairs,
            references: s.references,
            checks: s.checks,
            fallback: s.fallback != 0,
            builds: s.builds,
            built_in: s.built_in.into(),
        }
    }
}

// Epsilon, or where the rule is neither 1 nor 2 one that is out of range.
fn ruled(rule: u32, epsilon: f64) -> f64
    ensures { result ≡ ruled_of rule epsilon }
{
    if (rule == 1) | (rule == 2) {
        return epsilon;
    }
    -1.0
}

// A function and no `From`, which needs a type of this crate on one side.
fn mixing(rule: u32) -> Mixing
    ensures { result ≡ mixing_of rule }
{
    if rule == 2 {
        return Mixing::Geometric;
    }
    Mixing::HalfSum
}

impl From<FlatLj> for Lj {
    ghost from_gives = { λ lj r. r ≡ lj_of lj };

    fn from(lj: FlatLj) -> Lj {
        Lj {
            epsilon: ruled(lj.rule, lj.epsilon),
            sigma: lj.sigma,
            cutoff: lj.cutoff,
            shift: lj.shift != 0,
            rule: mixing(lj.rule),
        }
    }
}

impl From<FlatLjTerm> for Option<Lj> {
    ghost from_gives = { λ term r. r ≡ lj_term_of term };

    fn from(term: FlatLjTerm) -> Option<Lj> {
        if term.present != 0 {
            Some(term.lj.into())
        } else {
            None
        }
    }
}

impl From<FlatCoulombTerm> for Option<Coulomb> {
    ghost from_gives = { λ term r. r ≡ coulomb_term_of term };

    fn from(term: FlatCoulombTerm) -> Option<Coulomb> {
        if term.present != 0 {
            Some(Coulomb {
                cutoff: term.cutoff,
            })
        } else {
            None
        }
    }
}

impl From<FlatBondTerm> for Option<Bond> {
    ghost from_gives = { λ term r. r ≡ bond_term_of term };

    fn from(term: FlatBondTerm) -> Option<Bond> {
        if term.present != 0 {
            Some(term.bond)
        } else {
            None
        }
    }
}

impl From<FlatThermostat> for Option<Thermostat> {
    ghost from_gives = { λ t r. r ≡ thermostat_of t };

    fn from(t: FlatThermostat) -> Option<Thermostat> {
        if t.present != 0 {
            Some(Thermostat {
                target_k: t.target_k,
                tau_fs: t.tau_fs,
            })
        } else {
            None
        }
    }
}

impl From<FlatSetting> for Setting {
    ghost from_gives = { λ s r. r ≡ setting_of s };

    fn from(s: FlatSetting) -> Setting {
        Setting {
            lj: s.lj.into(),
            coulomb: s.coulomb.into(),
            bond: s.bond.into(),
            angle: s.angle.into(),
            units: s.units,
            cell: s.cell.into(),
        }
    }
}

impl From<FlatPace> for Pace {
    ghost from_gives = { λ p r. r ≡ pace_of p };

    fn from(p: FlatPace) -> Pace {
        Pace {
            dt: p.dt,
            thermostat: p.thermostat.into(),
        }
    }
}

impl From<FlatFrame> for Frame {
    ghost from_gives = { λ f r. r ≡ frame_of f };

    fn from(f: FlatFrame) -> Frame {
        Frame {
            x: Side {
                edge: f.ex,
                round: f.px != 0,
            },
            y: Side {
                edge: f.ey,
                round: f.py != 0,
            },
            z: Side {
                edge: f.ez,
                round: f.pz != 0,
            },
            radius: f.radius,
        }
    }
}

// A virial by itself, three rows of three floats. A function and no `From`, which needs a type of this crate on one side.
pub fn rows(m: Rows) -> [[f64; 3]; 3]
    ensures { result ≡ rows_table m }
{
    let Rows { x, y, z } = m;
    [x, y, z]
}
