// Small Vec3 helpers (cell.rs's vec3).
ghost use Rattle.std.specs.Prelude.{◌≡◌};
ghost use Rattle.cell.specs.Vec.{zero_vec, sub_of, add_of, scale_of, dot_of, norm2_of, norm_of, cross_of};

use crate::Vec3;

pub fn zero() -> Vec3
    ensures { result ≡ zero_vec }
{
    Vec3 {
        x: 0.0,
        y: 0.0,
        z: 0.0,
    }
}

pub fn sub(a: Vec3, b: Vec3) -> Vec3
    ensures { result ≡ sub_of a b }
{
    Vec3 {
        x: a.x - b.x,
        y: a.y - b.y,
        z: a.z - b.z,
    }
}

pub fn add(a: Vec3, b: Vec3) -> Vec3
    ensures { result ≡ add_of a b }
{
    Vec3 {
        x: a.x + b.x,
        y: a.y + b.y,
        z: a.z + b.z,
    }
}

pub fn scale(a: Vec3, s: f64) -> Vec3
    ensures { result ≡ scale_of a s }
{
    Vec3 {
        x: a.x * s,
        y: a.y * s,
        z: a.z * s,
    }
}

pub fn dot(a: Vec3, b: Vec3) -> f64
    ensures { result ≡ dot_of a b }
{
    a.x * b.x + a.y * b.y + a.z * b.z
}

pub fn norm2(a: Vec3) -> f64
    ensures { result ≡ norm2_of a }
{
    dot(a, a)
}

pub fn norm(a: Vec3) -> f64
    ensures { result ≡ norm_of a }
{
    float::quick_root(norm2(a))
}

pub fn cross(a: Vec3, b: Vec3) -> Vec3
    ensures { result ≡ cross_of a b }
{
    Vec3 {
        x: a.y * b.z - a.z * b.y,
        y: a.z * b.x - a.x * b.z,
        z: a.x * b.y - a.y * b.x,
    }
}
