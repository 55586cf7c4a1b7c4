// The tests of a sheet whose lines are all read: header (11), over 1,024 atoms (2), a number not below the count (4), an
// absent atom (11).
ghost use Rattle.std.specs.Prelude.{◌≡◌, ◌+◌, ◌≤◌, length, drop};
ghost use Rattle.sheet.specs.Reading.{lead_of, counted, tested};
ghost use Rattle.sheet.specs.Desk.{header_for, shown_judged};

use crate::desk::Desk;
use answer::{NO_HEADER, Refusal};
use sheet_lines::Head;

// The first place from `from` on whose mark is not v, or the length.
fn lead(seen: &[u8], from: usize, v: u8) -> usize
    requires { from ≤ length seen.now }
    ensures { result ≡ from + lead_of v (drop from seen.now) }
{
    for i in from..seen.len() {
        if seen[i] != v {
            return i;
        }
    }
    seen.len()
}

fn count_of(head: Head, seen: &[u8; 1024]) -> Result<Head, Refusal>
    ensures { shown_judged result ≡ counted head seen.now }
{
    let atoms = head.atoms as usize;
    if 1024 < atoms {
        return Err(Refusal::TooMany { atoms });
    }
    let stray = lead(seen, atoms, 0);
    if stray < 1024 {
        return Err(Refusal::NotThere { row: stray });
    }
    let absent = lead(seen, 0, 1);
    if absent < atoms {
        return Err(Refusal::Absent { place: absent });
    }
    Ok(head)
}

pub(crate) fn judge(desk: Desk, seen: &[u8; 1024]) -> Result<Head, Refusal>
    ensures { shown_judged result ≡ tested (header_for desk) seen.now }
{
    let Some(head) = desk.head else {
        return Err(Refusal::Absent { place: NO_HEADER });
    };
    count_of(head, seen)
}
