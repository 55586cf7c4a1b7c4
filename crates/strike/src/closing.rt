// Tables closed up in place: the rows that stay move to the front, in order, and what lies past them stays as it came. What is asked here, the call has
// tested. No public call.
ghost use Rattle.std.specs.Prelude.{◌≡◌, cond, ◌+◌, ◌*◌, ◌≤◌, ◌<◌, length, get_or};
ghost use Rattle.float.specs.Arith.{at};
ghost use Rattle.strike.specs.Closed.{survives, new_number, row_survives, link_survives};
ghost use Rattle.strike.specs.Steps.{Numbered, Carried, Closed};

fn wide(x: u32) -> usize
    ensures { result ≡ x }
{
    x as usize
}

fn one(is: bool) -> u32
    ensures { result ≡ cond is 1 0 }
{
    if is { 1 } else { 0 }
}

// Whether atom i is there and not struck.
fn survives(marks: &[u32], i: usize) -> bool
    ensures { result ≡ survives marks.now i }
{
    if i < marks.len() {
        return marks[i] == 0;
    }
    false
}

// Whether each atom survives that row k names, `width` a row.
fn row_survives(names: &[u32], width: usize, k: usize, marks: &[u32]) -> bool
    requires { width * k + width ≤ length names.now }
    ensures { result ≡ row_survives marks.now width names.now k }
{
    let from = width * k;
    for c in 0..width {
        if !survives(marks, wide(names[from + c])) {
            return false;
        }
    }
    true
}

// Whether bond or angle k of so many is there, and each of its atoms survives.
fn link_survives(names: &[u32], width: usize, links: usize, k: usize, marks: &[u32]) -> bool
    requires { width * links ≤ length names.now }
    ensures { result ≡ link_survives marks.now width links names.now k }
{
    if k < links {
        return row_survives(names, width, k, marks);
    }
    false
}

// Row `from` to row `to`, where it stays; the row after.
fn carry(xs: &mut [f64], width: usize, to: usize, from: usize, stays: bool) -> usize
    requires { (to ≤ from) × (from < length xs.old) × (width * from + width ≤ length xs.old) }
    ensures { Carried (at xs.old) width to from stays xs.old result xs.new }
{
    if !stays {
        return to;
    }
    let a = width * to;
    let b = width * from;
    for c in 0..width {
        xs[a + c] = xs[b + c];
    }
    to + 1
}

// The same of a table of one number a row.
fn carry_one(xs: &mut [u32], to: usize, from: usize, stays: bool) -> usize
    requires { (to ≤ from) × (from < length xs.old) }
    ensures { Carried (λ e. get_or xs.old e 0) 1 to from stays xs.old result xs.new }
{
    if !stays {
        return to;
    }
    xs[to] = xs[from];
    to + 1
}

// The same of a row of names, under their new numbers, where each survives.
fn carry_names(
    names: &mut [u32],
    width: usize,
    to: usize,
    from: usize,
    marks: &[u32],
    fresh: &[u32],
) -> usize
    requires { (to ≤ from) × (from < length names.old) × (width * from + width ≤ length names.old) × Numbered marks.now fresh.now }
    ensures { Carried (λ e. new_number marks.now (get_or names.old e 0)) width to from (row_survives marks.now width names.old from) names.old result names.new }
{
    if !row_survives(names, width, from, marks) {
        return to;
    }
    let a = width * to;
    let b = width * from;
    for c in 0..width {
        let i = wide(names[b + c]);
        names[a + c] = fresh[i];
    }
    to + 1
}

// The new numbers of the atoms.
pub(crate) fn number(marks: &[u32], fresh: &mut [u32])
    requires { (length marks.now ≤ 16384) × (length marks.now ≤ length fresh.old) }
    ensures { Numbered marks.now fresh.new }
{
    let mut to: u32 = 0;
    for k in 0..marks.len() {
        fresh[k] = to;
        to += one(survives(marks, k));
    }
}

// A table of the atoms' floats, `width` a row; how many rows stay.
pub(crate) fn close_atoms(xs: &mut [f64], width: usize, marks: &[u32]) -> usize
    requires { (length marks.now ≤ length xs.old) × (width * length marks.now ≤ length xs.old) }
    ensures { Closed (at xs.old) width (survives marks.now) (length marks.now) xs.old result xs.new }
{
    let mut to = 0;
    for k in 0..marks.len() {
        let stays = survives(marks, k);
        to = carry(xs, width, to, k, stays);
    }
    to
}

// A table of one number an atom.
pub(crate) fn close_whole(xs: &mut [u32], marks: &[u32]) -> usize
    requires { length marks.now ≤ length xs.old }
    ensures { Closed (λ e. get_or xs.old e 0) 1 (survives marks.now) (length marks.now) xs.old result xs.new }
{
    let mut to = 0;
    for k in 0..marks.len() {
        let stays = survives(marks, k);
        to = carry_one(xs, to, k, stays);
    }
    to
}

// A table of floats beside bonds or angles, `width` a row, of which `rows` are there; the names have `per` atoms a row and are `links` rows.
pub(crate) fn close_beside(
    xs: &mut [f64],
    width: usize,
    rows: usize,
    names: &[u32],
    per: usize,
    links: usize,
    marks: &[u32],
) -> usize
    requires { (rows ≤ length xs.old) × (width * rows ≤ length xs.old) × (per * links ≤ length names.now) }
    ensures { Closed (at xs.old) width (link_survives marks.now per links names.now) rows xs.old result xs.new }
{
    let mut to = 0;
    for k in 0..rows {
        let stays = link_survives(names, per, links, k, marks);
        to = carry(xs, width, to, k, stays);
    }
    to
}

// A table of names, `width` a row, of which `rows` are there: those whose atoms all survive, under their new numbers.
pub(crate) fn close_names(
    names: &mut [u32],
    width: usize,
    rows: usize,
    marks: &[u32],
    fresh: &[u32],
) -> usize
    requires { (rows ≤ length names.old) × (width * rows ≤ length names.old) × Numbered marks.now fresh.now }
    ensures { Closed (λ e. new_number marks.now (get_or names.old e 0)) width (row_survives marks.now width names.old) rows names.old result names.new }
{
    let mut to = 0;
    for k in 0..rows {
        to = carry_names(names, width, to, k, marks, fresh);
    }
    to
}
