// The list of a sheet: the sheet is read and its pair list built into lent pairs; and the line of a refusal. Total, for the crates above; no public
// call.
ghost use Rattle.answer.specs.Seen.{number_of, place_of, seen};
ghost use Rattle.std.specs.Prelude.{◌≡◌, ◌*◌, ◌≤◌, length, take};
ghost use Rattle.std.proofs.lemmas.List.Edits.{sets};
ghost use Rattle.sheet_printed.specs.Printed.{refusal_line};
ghost use Rattle.sheet_answer.specs.Solve.{frame_for};
ghost use Rattle.sheet_answer.specs.List.{job_list, ListSays, ListFits};

use crate::SheetList;
use answer::Refusal;
use frame::{Frame, Side, build};
use sheet::{Job, read};
use sheet_printed::put_refusal;

// The box of a sheet.
pub fn frame_of(job: Job) -> Frame
    ensures { result ≡ frame_for job }
{
    Frame {
        x: Side {
            edge: job.ex,
            round: job.px,
        },
        y: Side {
            edge: job.ey,
            round: job.py,
        },
        z: Side {
            edge: job.ez,
            round: job.pz,
        },
        radius: job.radius,
    }
}

// The line of a refusal at the front of `out`; how many bytes it is.
pub fn refuse(r: Refusal, out: &mut [u8]) -> usize
    ensures value { result ≡ length (refusal_line (number_of r) (place_of r)) }
    ensures out_after { out.new ≡ sets out.old 0 (refusal_line (number_of r) (place_of r)) }
{
    put_refusal(out, r.number(), r.place())
}

// The list of what was read, with 16,384 starts of the call's own.
pub(crate) fn list_job(
    job: Job,
    coordinates: &[u32],
    exclusions: &[u32],
    pairs: &mut [u32],
) -> Result<SheetList, Refusal>
    requires { (3 * job.atoms ≤ length coordinates.now) × (2 * job.count ≤ length exclusions.now) }
    ensures says { record { shown = seen result; pairs = pairs.new } ≡ job_list job (take (3 * job.atoms) coordinates.now) (take (2 * job.count) exclusions.now) pairs.old }
    ensures fits { job.atoms ≤ 1024 → ListFits result pairs.new }
{
    let mut starts = [0u32; 16384];
    let mut items = [0u32; 1024];
    let n = 3 * (job.atoms as usize);
    let m = 2 * (job.count as usize);
    let built = build(
        frame_of(job),
        &coordinates[..n],
        &exclusions[..m],
        pairs,
        &mut starts,
        &mut items,
    )?;
    Ok(SheetList {
        atoms: job.atoms,
        built,
    })
}

// Refusals: the reader's, then those of a build. A sheet that is refused leaves the pairs as they came.
pub fn list(input: &[u8], pairs: &mut [u32]) -> Result<SheetList, Refusal>
    ensures says { ListSays input.now pairs.old result pairs.new }
    ensures fits { ListFits result pairs.new }
{
    let mut coordinates = [0u32; 3072];
    let mut exclusions = [0u32; 2048];
    let job = read(input, &mut coordinates, &mut exclusions)?;
    list_job(job, &coordinates, &exclusions, pairs)
}
