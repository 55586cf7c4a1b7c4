// A sheet from a whole-number frame: its one written form. specs/Written.antt says which bytes, specs/Write.antt what `write`
// answers and leaves, specs/Theorems.antt that `read` gives back what was written.
#![tactic(auto)]

use answer::Refusal;
use frame::Frame;
use sheet_lines::Head;

mod asked;
mod lines;
pub mod two;

ghost use Rattle.std.specs.Prelude.{◌≡◌, ◌≤◌};
ghost use Rattle.sheet_written.specs.Written.{bit_of, head_of};
ghost use Rattle.sheet_written.specs.Write.{WriteSays};

fn bit(on: bool, worth: u32) -> u32
    ensures value { result ≡ bit_of on worth }
    ensures upper_bound { result ≤ worth }
{
    if on { worth } else { 0 }
}

// The header of a frame with so many atoms.
pub(crate) fn head_of(f: Frame, atoms: u32) -> Head
    ensures { result ≡ head_of f atoms }
{
    let x = bit(f.x.round, 1);
    let y = bit(f.y.round, 2);
    let z = bit(f.z.round, 4);
    Head {
        atoms,
        ex: f.x.edge,
        ey: f.y.edge,
        ez: f.z.edge,
        mask: x + y + z,
        radius: f.radius,
    }
}

// The written form of a frame, its atoms and its exclusions at the front of `out`, and how many bytes it is. Refusals 1, 2, 3, 5, and
// 8 where the bytes don't fit, with `out` as it came.
pub fn write(
    f: Frame,
    coordinates: &[u32],
    exclusions: &[u32],
    out: &mut [u8],
) -> Result<u64, Refusal>
    ensures { WriteSays f coordinates.now exclusions.now out.old result out.new }
{
    asked::asked(f, coordinates, exclusions)?;
    let n = coordinates.len() / 3;
    let m = exclusions.len() / 2;
    let bytes = 41 + 31 * n + 11 * m;
    if out.len() < bytes {
        return Err(Refusal::Room { count: bytes });
    }
    lines::put_header(out, head_of(f, n as u32));
    lines::put_atoms(out, coordinates);
    lines::put_rows(out, 41 + 31 * n, exclusions);
    Ok(bytes as u64)
}
