// The loops of an iteration after the second kick, and the pace: total, but what is private.
ghost use Rattle.std.specs.Prelude.{◌≡◌, ◌+◌, ◌*◌, ◌<◌, ◌≤◌, length};
ghost use Rattle.virial.specs.Virial.{velocity_at};
ghost use Rattle.fire.specs.Steer.{largest_force, powered_by, no_powers, powers_of, pull_norm, blend_of, blended_of, blended_by, fresh_gait, quickened, slowed, steered_of};

use cell::Vec3;

// Time step, alpha, and the steps since the power was last not above zero.
#[derive(Clone, Copy)]
pub(crate) struct Gait {
    pub dt: f64,
    pub alpha: f64,
    pub since: u32,
}

// The power, and the squared norms of all velocities and of all forces.
#[derive(Clone, Copy)]
struct Powers {
    power: f64,
    speed2: f64,
    pull2: f64,
}

// The largest magnitude of a component; a not-a-number is passed over.
pub(crate) fn largest(fs: &[f64]) -> f64
    ensures { result ≡ largest_force fs.now }
{
    let mut m = 0.0;
    for f in fs {
        m = float::max(m, float::abs(*f));
    }
    m
}

fn triple(vs: &[f64], i: usize) -> Vec3
    requires { 3 * i + 3 ≤ length vs.now }
    ensures { result ≡ velocity_at vs.now i }
{
    let k = 3 * i;
    Vec3 {
        x: vs[k],
        y: vs[k + 1],
        z: vs[k + 2],
    }
}

// What one atom adds.
fn add_power(f: Vec3, v: Vec3, p: Powers) -> Powers
    ensures { result ≡ powered_by f v p }
{
    Powers {
        power: p.power + cell::vectors::dot(f, v),
        speed2: p.speed2 + cell::vectors::norm2(v),
        pull2: p.pull2 + cell::vectors::norm2(f),
    }
}

fn no_powers() -> Powers
    ensures { result ≡ no_powers }
{
    Powers {
        power: 0.0,
        speed2: 0.0,
        pull2: 0.0,
    }
}

fn sum_powers(fs: &[f64], vs: &[f64]) -> Powers
    ensures { result ≡ powers_of fs.now vs.now }
{
    let n = virial::ranged::shorter(fs.len() / 3, vs.len() / 3);
    let mut p = no_powers();
    for i in 0..n {
        let f = triple(fs, i);
        let v = triple(vs, i);
        p = add_power(f, v, p);
    }
    p
}

// The norm of all forces, at least 1e-30.
fn pull_norm(p: Powers) -> f64
    ensures { result ≡ pull_norm p }
{
    float::max(float::root(p.pull2), 1e-30)
}

fn mix_one(keep: f64, one: f64, push: f64, f: f64, v: f64) -> f64
    ensures { result ≡ blend_of keep one push f v }
{
    v * keep + f * one * push
}

fn mix_all(keep: f64, one: f64, push: f64, fs: &[f64], vs: &mut [f64])
    requires { length fs.now ≡ length vs.old }
    ensures { vs.new ≡ blended_of keep one push fs.now vs.old }
{
    for k in 0..vs.len() {
        vs[k] = mix_one(keep, one, push, fs[k], vs[k]);
    }
}

// Velocities turned toward the forces.
fn mix(alpha: f64, p: Powers, fs: &[f64], vs: &mut [f64])
    ensures { vs.new ≡ blended_by alpha p fs.now vs.old }
{
    if fs.len() == vs.len() {
        let one = 1.0 / pull_norm(p);
        let push = alpha * float::root(p.speed2);
        mix_all(1.0 - alpha, one, push, fs, vs);
    }
}

pub(crate) fn fresh(dt: f64) -> Gait
    ensures { result ≡ fresh_gait dt }
{
    Gait {
        dt,
        alpha: 0.1,
        since: 0,
    }
}

fn quicken(dt_max: f64, g: Gait) -> Gait
    requires { g.since < 4294967295 }
    ensures { result ≡ quickened dt_max g }
{
    let since = g.since + 1;
    if 5 < since {
        return Gait {
            dt: float::min(g.dt * 1.1, dt_max),
            alpha: g.alpha * 0.99,
            since,
        };
    }
    Gait {
        dt: g.dt,
        alpha: g.alpha,
        since,
    }
}

fn slow(g: Gait) -> Gait
    ensures { result ≡ slowed g }
{
    Gait {
        dt: g.dt * 0.5,
        alpha: 0.1,
        since: 0,
    }
}

// Velocities and pace after the second kick.
pub(crate) fn steer(dt_max: f64, g: Gait, fs: &[f64], vs: &mut [f64]) -> Gait
    requires { g.since < 4294967295 }
    ensures { (result, vs.new) ≡ steered_of dt_max g fs.now vs.old }
{
    let p = sum_powers(fs, vs);
    if p.power > 0.0 {
        mix(g.alpha, p, fs, vs);
        return quicken(dt_max, g);
    }
    virial::kernel::clear(vs);
    slow(g)
}
