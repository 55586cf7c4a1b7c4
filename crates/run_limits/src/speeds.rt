// 16,384 masses and one more for kinetic_energy, temperature and berendsen. Masses, velocities and units are powers of two, so that no operation rounds.
// A line a size: number and place of each call, an answer's bits, and a digest of the velocities after the last.
use crate::{floats, show};
use answer::Refusal;
use replay_words::filled;
use virial::Units;

pub(crate) fn ones() -> Units {
    Units {
        force_to_accel: 1.0,
        kb_ev_per_k: 1.0,
        ke_coulomb: 1.0,
        ev_per_a3_to_gpa: 1.0,
    }
}

fn put_number(n: Result<f64, Refusal>) {
    if let Some(x) = show::put_head(n) {
        show::put(float::to_bits(x));
    }
}

fn ask(masses: &[f64], vs: &mut [f64]) {
    put_number(verlet::kinetic_energy(ones(), vs, masses));
    put_number(verlet::temperature(ones(), 49152.0, vs, masses));
    show::put_head(verlet::berendsen(ones(), 1.0, 1.0, 1.0, masses, vs));
    show::end(floats::digest(vs));
}

fn most() {
    let masses = [1.0; 16384];
    let mut vs = [0.5; 49152];
    ask(&masses, &mut vs);
}

fn over() {
    let masses = [1.0; 16385];
    let mut vs: [f64; 49155] = filled(0.5);
    ask(&masses, &mut vs);
}

pub(crate) fn all() {
    most();
    over();
}
