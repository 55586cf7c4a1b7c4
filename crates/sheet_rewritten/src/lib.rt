// A sheet's written form: the sheet is read, and written anew from what was read. specs/Rewrite.antt says which bytes, specs/Theorems.antt
// that sheets of equal meaning, and these alone, have one written form.
#![tactic(auto)]

ghost use Rattle.std.specs.Prelude.{◌≡◌, ◌*◌, ◌≤◌, length, take};
ghost use Rattle.std.proofs.lemmas.List.Edits.{sets};
ghost use Rattle.sheet_rewritten.specs.Rewrite.{RewriteSays};
ghost use Rattle.sheet_rewritten.specs.Steps.{frame_text};

use answer::Refusal;
use frame::Frame;
use sheet::read;
use sheet_answer::kernel::{frame_of, refuse};
use sheet_written::write;

// The text of a frame that was read, or its refusal's line. (The longest written form fits, so there is no 8.)
fn put_frame(f: Frame, coordinates: &[u32], exclusions: &[u32], out: &mut [u8]) -> usize
    requires { 43049 ≤ length out.old }
    ensures value { result ≡ length (frame_text f coordinates.now exclusions.now) }
    ensures out_after { out.new ≡ sets out.old 0 (frame_text f coordinates.now exclusions.now) }
{
    let wrote = write(f, coordinates, exclusions, out);
    match wrote {
        Ok(n) => n as usize,
        Err(r) => refuse(r, out),
    }
}

// The written form of a sheet at the front of `out`, or the line of its refusal, and how many bytes that is. 1: out is under 43,049 bytes,
// which is a header, 1,024 atoms and 1,024 exclusions.
pub fn rewrite(input: &[u8], out: &mut [u8]) -> Result<u64, Refusal>
    ensures { RewriteSays input.now out.old result out.new }
{
    if out.len() < 43049 {
        return Err(Refusal::Lengths);
    }
    let mut coordinates = [0u32; 3072];
    let mut exclusions = [0u32; 2048];
    let sheet = read(input, &mut coordinates, &mut exclusions);
    match sheet {
        Ok(job) => {
            let n = 3 * (job.atoms as usize);
            let m = 2 * (job.count as usize);
            let bytes = put_frame(frame_of(job), &coordinates[..n], &exclusions[..m], out);
            Ok(bytes as u64)
        }
        Err(r) => {
            let bytes = refuse(r, out);
            Ok(bytes as u64)
        }
    }
}
