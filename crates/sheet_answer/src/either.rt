// The printed answer of a sheet of either form (02, No. 9 and 10); species and rule don't enter it. specs/Either.antt says which bytes.
ghost use Rattle.sheet_answer.specs.Either.{EitherListSays, SolveEitherSays, EitherFits};

use crate::kernel::list_job;
use crate::{SheetList, put_list};
use answer::Refusal;
use sheet_either::read_either;

// As `list` of a sheet of the first form.
fn list_either(input: &[u8], pairs: &mut [u32]) -> Result<SheetList, Refusal>
    ensures { EitherListSays input.now pairs.old result pairs.new }
{
    let mut coordinates = [0u32; 3072];
    let mut species = [0u32; 1024];
    let mut exclusions = [0u32; 2048];
    let formed = read_either(input, &mut coordinates, &mut species, &mut exclusions)?;
    list_job(formed.job, &coordinates, &exclusions, pairs)
}

// The printed answer of a sheet of either form at the front of `out`, and how many bytes it is. 1: out is under 90,133 bytes.
pub fn solve_either(input: &[u8], out: &mut [u8]) -> Result<u64, Refusal>
    ensures says { SolveEitherSays input.now out.old result out.new }
    ensures fits { EitherFits input.now result out.new }
{
    if out.len() < 90133 {
        return Err(Refusal::Lengths);
    }
    let mut pairs = [0u32; 16384];
    let list = list_either(input, &mut pairs);
    let n = put_list(list, &pairs, out);
    Ok(n as u64)
}
