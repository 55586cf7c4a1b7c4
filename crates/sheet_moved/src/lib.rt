// A sheet moved from one form to the other (02, No. 9 and 10), as it is written. specs/Moved.antt says which bytes.
#![tactic(auto)]

ghost use Rattle.std.specs.Prelude.{◌≡◌};
ghost use Rattle.sheet.specs.Reading.{lead_of};
ghost use Rattle.sheet_moved.specs.declared.MoveError.TheVariants.{Refused};
ghost use Rattle.sheet_moved.specs.Moved.{ToOneSays, ToTwoSays};

use answer::Refusal;
use sheet::read;
use sheet::two::read_two;
use sheet_answer::kernel::frame_of;
use sheet_written::two::write_two;
use sheet_written::write;

// The place of a refusal 12 for the rule.
pub const AT_RULE: usize = 0xffff_ffff;

// Why a sheet is not moved: it is refused; or 12: it stays as it is, for its rule (place AT_RULE), or for a species, place the lowest atom that has one.
#[derive(Clone, Copy)]
pub enum MoveError {
    Refused(Refusal),
    NoWayBack { place: usize },
}

impl From<Refusal> for MoveError {
    ghost from_gives = { λ why e. e ≡ Refused why };

    fn from(why: Refusal) -> MoveError {
        MoveError::Refused(why)
    }
}

// The first place whose species is not 0, or the length.
fn first_typed(species: &[u32]) -> usize
    ensures { result ≡ lead_of 0 species.now }
{
    for (i, kind) in species.iter().enumerate() {
        if *kind != 0 {
            return i;
        }
    }
    species.len()
}

// A sheet of the second form in the first, at the front of `out`, and how many bytes that is. Refusals: those of the form's reader, 12, then the
// writer's 3 and 8; `out` as it came.
pub fn to_one(input: &[u8], out: &mut [u8]) -> Result<u64, MoveError>
    ensures { ToOneSays input.now out.old result out.new }
{
    let mut coordinates = [0u32; 3072];
    let mut species = [0u32; 1024];
    let mut exclusions = [0u32; 2048];
    let said = read_two(input, &mut coordinates, &mut species, &mut exclusions)?;
    if said.rule != 1 {
        return Err(MoveError::NoWayBack { place: AT_RULE });
    }
    let job = said.job;
    let atoms = job.atoms as usize;
    let n = 3 * atoms;
    let m = 2 * (job.count as usize);
    let k = first_typed(&species[..atoms]);
    if k < atoms {
        return Err(MoveError::NoWayBack { place: k });
    }
    let bytes = write(frame_of(job), &coordinates[..n], &exclusions[..m], out)?;
    Ok(bytes)
}

// A sheet of the first form in the second, rule 01, each species 0, at the front of `out`, and how many bytes that is. Refusals: those of the form's reader,
// then the writer's 3 and 8; `out` as it came.
pub fn to_two(input: &[u8], out: &mut [u8]) -> Result<u64, Refusal>
    ensures { ToTwoSays input.now out.old result out.new }
{
    let mut coordinates = [0u32; 3072];
    let mut exclusions = [0u32; 2048];
    let job = read(input, &mut coordinates, &mut exclusions)?;
    let n = 3 * (job.atoms as usize);
    let m = 2 * (job.count as usize);
    write_two(frame_of(job), &coordinates[..n], &exclusions[..m], out)
}
