// A sheet of either form (02, No. 9 and 10): the first header or atom line says which. specs/Either.antt says what `read_either` answers
// and leaves.
#![tactic(auto)]

ghost use Rattle.std.specs.Prelude.{◌≡◌, ◌≤◌, length, replicate};
ghost use Rattle.std.proofs.lemmas.List.Edits.{sets};
ghost use Rattle.sheet_lines_two.specs.Twos.{twos_of};
ghost use Rattle.sheet_either.specs.Either.{is_two, EitherSays};

use answer::Refusal;
use sheet::two::read_two;
use sheet::{Job, read};
use sheet_lines::Line;
use sheet_lines_two::two_at;

// What a sheet says, which form its header has, 1 or 2, and its rule, 1 or 2; a sheet of the first form means rule 1. Both are numbers, as
// they stand in the struct for C.
#[derive(Drop)]
pub struct Formed {
    pub job: Job,
    pub form: u32,
    pub rule: u32,
}

// The first header or atom line is of the second form. The exclusions before it are passed over, 11 bytes each.
fn is_two(s: &[u8]) -> bool
    ensures { result ≡ is_two (twos_of s.now) }
{
    for at in (0..s.len()).step_by(11) {
        let two = two_at(s, at);
        let core = two.core;
        match core {
            Line::Header(_) => {
                return true;
            }
            Line::Atom {
                number: _,
                x: _,
                y: _,
                z: _,
            } => {
                return true;
            }
            Line::Exclusion {
                first: _,
                second: _,
            } => {}
            Line::Malformed => {
                return false;
            }
            Line::End => {
                return false;
            }
        }
    }
    false
}

fn zero_first(to: &mut [u32], n: usize)
    requires { n ≤ length to.old }
    ensures { to.new ≡ sets to.old 0 (replicate n 0) }
{
    to[..n].fill(0);
}

// A sheet's numbers as `read` has them, with a species for each atom, 0 on a sheet of the first form. A refusal touches nothing.
pub fn read_either(
    input: &[u8],
    coordinates: &mut [u32],
    species: &mut [u32],
    exclusions: &mut [u32],
) -> Result<Formed, Refusal>
    ensures { EitherSays input.now coordinates.old species.old exclusions.old result coordinates.new species.new exclusions.new }
{
    if species.len() < 1024 {
        return Err(Refusal::Lengths);
    }
    if is_two(input) {
        let said = read_two(input, coordinates, species, exclusions)?;
        let job = said.job;
        return Ok(Formed {
            job,
            form: 2,
            rule: said.rule,
        });
    }
    let job = read(input, coordinates, exclusions)?;
    zero_first(species, job.atoms as usize);
    Ok(Formed {
        job,
        form: 1,
        rule: 1,
    })
}
