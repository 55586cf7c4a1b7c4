// A job sheet's printed answer: the list of the sheet (module kernel), and the answer or the refusal written out.
#![tactic(auto)]

pub mod either;
pub mod kernel;

ghost use Rattle.std.specs.Prelude.{◌≡◌, length};
ghost use Rattle.std.proofs.lemmas.List.Edits.{sets};
ghost use Rattle.answer.specs.Seen.{seen};
ghost use Rattle.sheet_answer.specs.Solve.{SolveSays, SolveFits};
ghost use Rattle.sheet_answer.specs.Steps.{list_text};

use crate::kernel::refuse;
use answer::Refusal;
use frame::Built;
use sheet_printed::put_built;

// The list of a sheet: its atoms, and the numbers of its build.
#[derive(Drop)]
pub struct SheetList {
    pub atoms: u32,
    pub built: Built,
}

// The text of a list; how many bytes that is.
pub(crate) fn put_list(list: Result<SheetList, Refusal>, pairs: &[u32], out: &mut [u8]) -> usize
    ensures value { result ≡ length (list_text (seen list) pairs.now) }
    ensures out_after { out.new ≡ sets out.old 0 (list_text (seen list) pairs.now) }
{
    match list {
        Ok(SheetList { atoms: _, built }) => put_built(
            out,
            pairs,
            built.pairs as usize,
            built.checks as u64,
            built.fallback,
        ),
        Err(r) => refuse(r, out),
    }
}

// The printed answer of a sheet at the front of `out`, and how many bytes it is. 1: out is under 90,133 bytes, which is a
// count line and 8,192 pairs.
pub fn solve(input: &[u8], out: &mut [u8]) -> Result<u64, Refusal>
    ensures says { SolveSays input.now out.old result out.new }
    ensures fits { SolveFits input.now result out.new }
{
    if out.len() < 90133 {
        return Err(Refusal::Lengths);
    }
    let mut pairs = [0u32; 16384];
    let list = crate::kernel::list(input, &mut pairs);
    let n = put_list(list, &pairs, out);
    Ok(n as u64)
}
