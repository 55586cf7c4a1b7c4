// The desk on which a sheet is read: the header and the number of exclusions by value, beside three tables, of coordinates
// (three an atom number), of marks (one an atom number, 1 where its line was read) and of exclusions (two a row).
ghost use Rattle.std.specs.Prelude.{◌≡◌, ℕ, List, None, cond, [], ◌<◌, length, take, set};
ghost use Rattle.std.proofs.Math.Option.{none};
ghost use Rattle.answer.specs.Seen.{answered};
ghost use Rattle.sheet_lines.specs.Reading.{line_at, line_width, lines_of};
ghost use Rattle.lists.specs.Lists.{rows};
ghost use Rattle.sheet.specs.Meaning.{fresh, placed, excluding, acted, act_of};
ghost use Rattle.sheet.specs.Reading.{refusal_for, onward, run};
ghost use Rattle.sheet.specs.Desk.{meaning_for, shown_kept, shown_rows, Fit, FitCount, FitKept, NumberBelow, LineTold, LinesBy};

use answer::Refusal;
use exclusions::exclude;
use sheet_lines::{Head, Line, line_at, width};

#[derive(Clone, Copy)]
pub(crate) struct Desk {
    pub head: Option<Head>,
    pub count: u32,
}

fn keep_exclusion(table: &mut [u32; 2048], count: u32, a: u32, b: u32) -> Option<u32>
    requires { Fit count table.old }
    ensures table_after { shown_rows result table.new ≡ excluding a b (take count (rows table.old)) }
    ensures fit_count { FitCount result table.new }
{
    let whole = exclude(count, a, b, table);
    match whole {
        Ok(n) => Some(n as u32),
        Err(_) => None,
    }
}

// An atom's coordinates at its own number, the first time that the number comes.
fn keep_atom(
    coords: &mut [u32; 3072],
    seen: &mut [u8; 1024],
    number: usize,
    x: u32,
    y: u32,
    z: u32,
) -> bool
    requires { number < 1024 }
    ensures value { result ≡ fresh seen.old number }
    ensures coords_after { coords.new ≡ cond (fresh seen.old number) (placed coords.old number x y z) coords.old }
    ensures seen_after { seen.new ≡ cond (fresh seen.old number) (set seen.old number 1) seen.old }
{
    let mark = seen[number];
    if mark == 0 {
        coords[3 * number] = x;
        coords[3 * number + 1] = y;
        coords[3 * number + 2] = z;
        seen[number] = 1;
        return true;
    }
    false
}

// The n-th line on the desk.
pub(crate) fn keep(
    line: Line,
    n: usize,
    desk: Desk,
    coords: &mut [u32; 3072],
    seen: &mut [u8; 1024],
    table: &mut [u32; 2048],
) -> Result<Desk, Refusal>
    requires { NumberBelow line × Fit desk.count table.old }
    ensures table_after { shown_kept result coords.new seen.new table.new ≡ onward (acted (act_of line) (meaning_for desk coords.old seen.old table.old)) (refusal_for line n) (λ m. answered m) }
    ensures fit_kept { FitKept result table.new }
{
    let count = desk.count;
    match line {
        Line::Header(h) => match desk.head {
            Some(_) => Err(Refusal::Again { line: n }),
            None => Ok(Desk {
                head: Some(h),
                count,
            }),
        },
        Line::Atom { number, x, y, z } => {
            let own = number as usize;
            if keep_atom(coords, seen, own, x, y, z) {
                return Ok(desk);
            }
            Err(Refusal::Again { line: n })
        }
        Line::Exclusion { first, second } => {
            let held = keep_exclusion(table, count, first, second);
            let Some(more) = held else {
                return Err(Refusal::Room { count: 1025 });
            };
            Ok(Desk {
                head: desk.head,
                count: more,
            })
        }
        Line::Malformed => Err(Refusal::Malformed { line: n }),
        Line::End => Err(Refusal::Malformed { line: n }),
    }
}

pub(crate) fn blank() -> Desk
    ensures { (result.head ≡ None) × (result.count ≡ 0) }
{
    Desk {
        head: None,
        count: 0,
    }
}

// The lines in turn, each tested for 9, 10 and 8; the first that is refused ends the reading. `line_from` says which line starts at a place, and how many
// bytes it takes. A `while`, since each line says how wide it is.
pub(crate) fn read_by<F: Fn(usize) -> (Line, usize)>(
    s: &[u8],
    line_from: F,
    coords: &mut [u32; 3072],
    seen: &mut [u8; 1024],
    table: &mut [u32; 2048],
) -> Result<Desk, Refusal>
    requires callable { F.IsAlwaysCallable line_from }
    requires told { (at : ℕ) (l : Line) (w : ℕ) → at < length s.now → F.post line_from at (l, w) → LineTold l w }
    ensures table_after { (lines : ℕ → ℕ → List Line) → LinesBy (F.post line_from) (length s.now) lines → shown_kept result coords.exit.now seen.new table.new ≡ run (lines (length s.now) 0) 0 (record { header = none; atoms = record { coords = coords.entry.now; marks = seen.old }; rows = [] }) }
    ensures fit_kept { FitKept result table.new }
{
    let mut desk = blank();
    let mut at: usize = 0;
    let mut n: usize = 0;
    while at < s.len() {
        let (line, wide) = line_from(at);
        n += 1;
        desk = keep(line, n, desk, coords, seen, table)?;
        at += wide;
    }
    Ok(desk)
}

// The lines of the first form.
pub(crate) fn read_lines(
    s: &[u8],
    coords: &mut [u32; 3072],
    seen: &mut [u8; 1024],
    table: &mut [u32; 2048],
) -> Result<Desk, Refusal>
    ensures table_after { shown_kept result coords.exit.now seen.new table.new ≡ run (lines_of s.now) 0 (record { header = none; atoms = record { coords = coords.entry.now; marks = seen.old }; rows = [] }) }
    ensures fit_kept { FitKept result table.new }
{
    let line_from = |at: usize| -> (Line, usize)
        ensures { result ≡ (line_at s.entry.now at, line_width (line_at s.entry.now at)) }
    {
        let line = line_at(s, at);
        (line, width(line))
    };
    read_by(s, line_from, coords, seen, table)
}
