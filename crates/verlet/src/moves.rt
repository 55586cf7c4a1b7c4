// The loops of a step, for the crates above: total, and no range is tested. Where the lists do not fit each other nothing is moved. No public call.
ghost use Rattle.std.specs.Prelude.{◌≡◌, ◌*◌, ◌<◌, length};
ghost use Rattle.float.specs.Literals.{half};
ghost use Rattle.lists.specs.Lists.{every};
ghost use Rattle.float.specs.Arith.{◌⊕◌, ◌⊗◌, at};
ghost use Rattle.verlet.specs.Verlet.{kick_of, kick_at, kicked_of, drifted_of};
ghost use Rattle.verlet.specs.Parts.{three_each, kick_fits, move_fits, kicked_by, moved_by, coordinate, drifts};

use virial::Units;

fn three_each(xs: usize, ms: usize) -> bool
    requires { 3 * ms < 18446744073709551616 }
    ensures { result ≡ three_each xs ms }
{
    xs == 3 * ms
}

fn kick_fits(fs: &[f64], ms: &[f64], vs: &[f64]) -> bool
    ensures { result ≡ kick_fits fs.now ms.now vs.now }
{
    three_each(vs.len(), ms.len()) & three_each(fs.len(), ms.len())
}

fn move_fits(fs: &[f64], ms: &[f64], xs: &[f64], vs: &[f64]) -> bool
    ensures { result ≡ move_fits fs.now ms.now xs.now vs.now }
{
    kick_fits(fs, ms, vs) & three_each(xs.len(), ms.len())
}

// One float of a velocity, where f and m are its force and mass and h half the time step.
fn kick_one(accel: f64, h: f64, f: f64, m: f64, v: f64) -> f64
    ensures { result ≡ kick_of accel h f m v }
{
    v + f * (accel / m) * h
}

fn kick_all(units: Units, dt: f64, fs: &[f64], ms: &[f64], vs: &mut [f64])
    requires { (length vs.old ≡ 3 * length ms.now) × (length fs.now ≡ 3 * length ms.now) }
    ensures { vs.new ≡ kicked_of units dt fs.now ms.now vs.old }
{
    let accel = units.force_to_accel;
    let h = 0.5 * dt;
    for k in 0..vs.len() {
        vs[k] = kick_one(accel, h, fs[k], ms[k / 3], vs[k]);
    }
}

fn drift_all(dt: f64, vs: &[f64], xs: &mut [f64])
    requires { length xs.old ≡ length vs.now }
    ensures { xs.new ≡ drifted_of dt vs.now xs.old }
{
    for k in 0..xs.len() {
        xs[k] = xs[k] + vs[k] * dt;
    }
}

// Half a kick of every atom.
pub fn kick(units: Units, dt: f64, fs: &[f64], ms: &[f64], vs: &mut [f64])
    ensures { vs.new ≡ kicked_by units dt fs.now ms.now vs.old }
{
    if kick_fits(fs, ms, vs) {
        kick_all(units, dt, fs, ms, vs);
    }
}

// The first loop of a step: half a kick, then the drift.
pub fn kick_and_drift(units: Units, dt: f64, fs: &[f64], ms: &[f64], xs: &mut [f64], vs: &mut [f64])
    ensures { (xs.new, vs.new) ≡ moved_by units dt fs.now ms.now xs.old vs.old }
{
    if move_fits(fs, ms, xs, vs) {
        kick_all(units, dt, fs, ms, vs);
        drift_all(dt, vs, xs);
    }
}

// One coordinate after the first loop of a step, with nothing stored.
fn drifted_at(
    units: Units,
    dt: f64,
    fs: &[f64],
    ms: &[f64],
    xs: &[f64],
    vs: &[f64],
    k: usize,
) -> f64
    requires { (k < length xs.now) × (length vs.now ≡ 3 * length ms.now) × (length fs.now ≡ 3 * length ms.now) × (length xs.now ≡ 3 * length ms.now) }
    ensures { result ≡ at xs.now k ⊕ kick_at units.force_to_accel (half ⊗ dt) fs.now ms.now k (at vs.now k) ⊗ dt }
{
    let v = kick_one(units.force_to_accel, 0.5 * dt, fs[k], ms[k / 3], vs[k]);
    xs[k] + v * dt
}

fn all_drift(units: Units, dt: f64, fs: &[f64], ms: &[f64], xs: &[f64], vs: &[f64]) -> bool
    requires { (length vs.now ≡ 3 * length ms.now) × (length fs.now ≡ 3 * length ms.now) × (length xs.now ≡ 3 * length ms.now) }
    ensures { result ≡ every coordinate (drifted_of dt (kicked_of units dt fs.now ms.now vs.now) xs.now) }
{
    for k in 0..xs.len() {
        let x = drifted_at(units, dt, fs, ms, xs, vs, k);
        if !ranges::is_within(1048576.0, x) {
            return false;
        }
    }
    true
}

// Whether the first loop of a step would leave every coordinate in range: refusal 3, place 1, before anything is stored.
pub fn drifts(units: Units, dt: f64, fs: &[f64], ms: &[f64], xs: &[f64], vs: &[f64]) -> bool
    ensures { result ≡ drifts units dt fs.now ms.now xs.now vs.now }
{
    if move_fits(fs, ms, xs, vs) {
        return all_drift(units, dt, fs, ms, xs, vs);
    }
    false
}
