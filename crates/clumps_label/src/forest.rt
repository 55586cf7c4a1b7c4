// The labels as a forest while the pairs are read: an atom points at itself, a root, or at a lower atom of its clump.
// No public call.
ghost use Rattle.std.specs.Prelude.{◌≡◌, cond, ◌≤◌, length};
ghost use mathlib.Core.List.{foldl};
ghost use Rattle.lists.specs.Lists.{rows, up_to};
ghost use Rattle.ranges.specs.Rows.{absent_of};
ghost use Rattle.clumps_label.specs.Label.{linked};
ghost use Rattle.clumps_label.specs.Steps.{Falling, Moved, Found, Rooted, Step, Settled};

fn wide(x: u32) -> usize
    ensures { result ≡ x }
{
    x as usize
}

// Every atom a root.
pub(crate) fn plant(p: &mut [u32])
    requires { length p.old ≤ 16384 }
    ensures { p.new ≡ up_to (length p.old) }
{
    for i in 0..p.len() {
        p[i] = i as u32;
    }
}

// The root of an atom. On the way each atom that is passed is made to point past the next. A `while`, since nothing says how far the root is.
fn root(p: &mut [u32], i: u32) -> u32
    requires { Rooted p.old i i }
    ensures { Found p.old i result p.new }
{
    let mut at = i;
    let mut up = p[wide(at)];
    while up < at {
        let over = p[wide(up)];
        p[wide(at)] = over;
        at = over;
        up = p[wide(at)];
    }
    at
}

// The trees of two atoms become one, under the lower of the two roots.
fn unite(p: &mut [u32], a: u32, b: u32)
    requires { Rooted p.old a b }
    ensures { Moved (λ f. linked f (a, b)) p.old p.new }
{
    let x = root(p, a);
    let y = root(p, b);
    if x < y {
        p[wide(y)] = x;
        return;
    }
    p[wide(x)] = y;
}

// One pair more. Most pairs of a long list join what is joined already, and most atoms point at their root.
fn link(p: &mut [u32], a: u32, b: u32)
    requires { Rooted p.old a b }
    ensures { Moved (λ f. linked f (a, b)) p.old p.new }
{
    if p[wide(a)] == p[wide(b)] {
        return;
    }
    unite(p, a, b);
}

pub(crate) fn link_all(p: &mut [u32], pairs: &[u32])
    requires { Falling p.old × (length (rows pairs.now) ≤ absent_of (length p.old) (rows pairs.now)) }
    ensures { Moved (λ f. foldl linked f (rows pairs.now)) p.old p.new }
{
    let m = pairs.len() / 2;
    for k in 0..m {
        link(p, pairs[2 * k], pairs[2 * k + 1]);
    }
}

fn one(is: bool) -> usize
    ensures { result ≡ cond is 1 0 }
{
    if is { 1 } else { 0 }
}

// Atom i points at its root, where all lower ones do already; 1 where it is a root itself.
fn settle_at(p: &mut [u32], i: usize) -> usize
    requires { Rooted p.old i i }
    ensures { Step p.old i result p.new }
{
    let up = wide(p[i]);
    p[i] = p[up];
    one(up == i)
}

// Every atom points at its root, which is its label; how many roots there are.
pub(crate) fn settle(p: &mut [u32]) -> usize
    requires { Falling p.old }
    ensures { Settled p.old (length p.old) result p.new }
{
    let mut count: usize = 0;
    for i in 0..p.len() {
        count += settle_at(p, i);
    }
    count
}
