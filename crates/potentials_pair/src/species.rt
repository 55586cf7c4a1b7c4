// The species tables, a desk's own before the house's: ids ascending, and two floats an id. The Rust's hash map, as lent slices.
ghost use Rattle.std.specs.Prelude.{◌≡◌, ◌+◌, ◌<◌, ltb, length, get_or};
ghost use Rattle.potentials_pair.specs.Species.{tables_of, rising, place_in, is_at, default_of, params_at, numbers_in, row_in_by, row_by, look_by};
ghost use Rattle.potentials_pair.specs.Lj.{mix_of};

use crate::{Lj, Mixed, SpeciesTables};

fn is_below(ids: &[u32], k: usize) -> bool
    requires { k + 1 < length ids.now }
    ensures { result ≡ ltb (get_or ids.now k 0) (get_or ids.now (k + 1) 0) }
{
    ids[k] < ids[k + 1]
}

// Refusal 5 does not apply: strictly ascending.
pub fn is_rising(ids: &[u32]) -> bool
    ensures { result ≡ rising ids.now }
{
    for k in 0..ids.len().saturating_sub(1) {
        if !is_below(ids, k) {
            return false;
        }
    }
    true
}

// The first id that is not below z, by halving. `while`, since each turn leaves one half of the range, and a `for` takes each number of a range.
fn place_in(ids: &[u32], z: u32) -> usize
    ensures { result ≡ place_in ids.now z }
{
    let mut from = 0;
    let mut to = ids.len();
    while from < to {
        let mid = from + (to - from) / 2;
        if ids[mid] < z {
            from = mid + 1;
        } else {
            to = mid;
        }
    }
    from
}

fn is_at(ids: &[u32], p: usize, z: u32) -> bool
    ensures { result ≡ is_at ids.now p z }
{
    if p < ids.len() {
        return ids[p] == z;
    }
    false
}

fn default_of(lj: Lj) -> Mixed
    ensures { result ≡ default_of lj }
{
    Mixed {
        epsilon: lj.epsilon,
        sigma: lj.sigma,
    }
}

// Row k as a part of the table, or the empty part.
fn row_at<'a>(params: &'a [f64], k: usize) -> &'a [f64]
    ensures { result.now ≡ params_at params.now k }
{
    if k < params.len() / 2 {
        return &params[2 * k..2 * k + 2];
    }
    &params[0..0]
}

// The row of species z in one table, or the empty part. Rows are looked up here and nowhere else.
fn row_in<'a>(ids: &[u32], params: &'a [f64], z: u32) -> &'a [f64]
    ensures { result.now ≡ row_in_by ids.now params.now z }
{
    let p = place_in(ids, z);
    if is_at(ids, p, z) {
        return row_at(params, p);
    }
    &params[0..0]
}

// The row of species z: a part of the own table, else of the house's, else the empty part.
pub fn row_of<'a>(tables: &SpeciesTables<'_, 'a>, z: u32) -> &'a [f64]
    ensures { result.now ≡ row_by (tables_of tables.now) z }
{
    let own = row_in(tables.own_ids, tables.own_params, z);
    if 0 < own.len() {
        return own;
    }
    row_in(tables.ids, tables.params, z)
}

// The numbers of a row, or the term's default where it is empty.
fn read(row: &[f64], lj: Lj) -> Mixed
    ensures { result ≡ numbers_in row.now lj }
{
    if 1 < row.len() {
        return Mixed {
            epsilon: row[0],
            sigma: row[1],
        };
    }
    default_of(lj)
}

// The numbers of a species: those of its row (`row_of`), or the term's default where no table has it.
pub fn look(tables: &SpeciesTables, lj: Lj, z: u32) -> Mixed
    ensures { result ≡ look_by (tables_of tables.now) lj z }
{
    let row = row_of(tables, z);
    read(row, lj)
}

// The mixed numbers of two species: asked here and nowhere else.
pub fn mixed(tables: &SpeciesTables, lj: Lj, y: u32, z: u32) -> Mixed
    ensures { result ≡ mix_of lj.rule (look_by (tables_of tables.now) lj y) (look_by (tables_of tables.now) lj z) }
{
    let a = look(tables, lj, y);
    let b = look(tables, lj, z);
    let rule = lj.rule;
    crate::lennard_jones::mix(rule, a, b)
}
