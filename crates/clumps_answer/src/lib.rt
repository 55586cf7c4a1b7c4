// The clumps of a job sheet, printed: the list of the sheet, the labels of its atoms, and a line for each clump.
#![tactic(auto)]

ghost use Rattle.std.specs.Prelude.{◌≡◌, cond, ◌+◌, ◌*◌, ◌≤◌, ◌<◌, length, take};
ghost use Rattle.std.proofs.lemmas.List.Edits.{sets};
ghost use Rattle.lists.specs.Lists.{rows};
ghost use Rattle.clumps_label.specs.Label.{labels_of};
ghost use Rattle.clumps_answer.specs.Clumps.{members_of, clump_rows, clump_lines, SolveClumpsSays, SolveClumpsFits};
ghost use Rattle.clumps_answer.specs.Theorems.{SolveClumpsPrints};
ghost use Rattle.clumps_answer.specs.Steps.{clump_line_at, RowsAmong};

use answer::Refusal;
use clumps_label::label;
use sheet_answer::kernel::{list, refuse};
use sheet_printed::put_two;

fn wide(x: u32) -> usize
    ensures { result ≡ x }
{
    x as usize
}

fn one(is: bool) -> usize
    ensures { result ≡ cond is 1 0 }
{
    if is { 1 } else { 0 }
}

// How many atoms have a label.
fn members(labels: &[u32], low: usize) -> usize
    ensures { result ≡ members_of labels.now low }
{
    let mut n: usize = 0;
    for label in labels {
        n += one(wide(*label) == low);
    }
    n
}

// The line 83 of atom i where it is the lowest of its clump, with the clump's size; where the next line goes.
fn put_at(labels: &[u32], i: usize, out: &mut [u8], at: usize) -> usize
    requires { (i < length labels.now) × (at ≤ 18446744073709551604) }
    ensures value { result ≡ at + length (clump_line_at labels.now i) }
    ensures out_after { out.new ≡ sets out.old at (clump_line_at labels.now i) }
{
    if wide(labels[i]) == i {
        let size = members(labels, i);
        put_two(out, at, 131, i as u64, size as u64);
        return at + 11;
    }
    at
}

// A line for each clump; how many bytes that is.
fn put_clumps(labels: &[u32], out: &mut [u8]) -> usize
    requires { length labels.now ≤ 1024 }
    ensures value { result ≡ length (clump_lines (clump_rows labels.now)) }
    ensures out_after { out.new ≡ sets out.old 0 (clump_lines (clump_rows labels.now)) }
{
    let mut at: usize = 0;
    for i in 0..labels.len() {
        at = put_at(labels, i, out, at);
    }
    at
}

// The labels of the listed atoms, into labels of their number: nothing is refused here, and how many clumps there are is not asked.
fn label_all(atoms: u32, pairs: &[u32], count: u32, labels: &mut [u32])
    requires { (length labels.old ≡ atoms) × RowsAmong atoms count pairs.now }
    ensures { labels.new ≡ labels_of atoms (rows (take (2 * count) pairs.now)) }
{
    let m = 2 * wide(count);
    let _ = label(atoms, &pairs[..m], labels);
}

// The clumps of a list, with room for labels.
fn put_labelled(atoms: u32, pairs: &[u32], count: u32, labels: &mut [u32], out: &mut [u8]) -> usize
    requires { (atoms ≤ length labels.old) × RowsAmong atoms count pairs.now }
    ensures value { result ≡ length (clump_lines (clump_rows (labels_of atoms (rows (take (2 * count) pairs.now))))) }
    ensures out_after { out.new ≡ sets out.old 0 (clump_lines (clump_rows (labels_of atoms (rows (take (2 * count) pairs.now))))) }
{
    let n = wide(atoms);
    label_all(atoms, pairs, count, &mut labels[..n]);
    put_clumps(&labels[..n], out)
}

fn put_list(atoms: u32, pairs: &[u32], count: u32, out: &mut [u8]) -> usize
    requires { RowsAmong atoms count pairs.now }
    ensures value { result ≡ length (clump_lines (clump_rows (labels_of atoms (rows (take (2 * count) pairs.now))))) }
    ensures out_after { out.new ≡ sets out.old 0 (clump_lines (clump_rows (labels_of atoms (rows (take (2 * count) pairs.now))))) }
{
    let mut labels = [0u32; 1024];
    put_labelled(atoms, pairs, count, &mut labels, out)
}

// The clumps of a sheet at the front of `out`, and how many bytes that is; a refused sheet's line as `solve` has it. 1: out is under 11,264 bytes,
// which is 1,024 clumps.
pub fn solve_clumps(input: &[u8], out: &mut [u8]) -> Result<u64, Refusal>
    ensures says { SolveClumpsSays input.now out.old result out.new }
    ensures fits { SolveClumpsFits input.now result out.new }
    ensures clumps { SolveClumpsPrints input.now result }
{
    if out.len() < 11264 {
        return Err(Refusal::Lengths);
    }
    let mut pairs = [0u32; 16384];
    let list = list(input, &mut pairs);
    match list {
        Ok(sheet) => {
            let n = put_list(sheet.atoms, &pairs, sheet.built.pairs, out);
            Ok(n as u64)
        }
        Err(r) => {
            let n = refuse(r, out);
            Ok(n as u64)
        }
    }
}
