// The calls of replay on a melt: of `strike`, 6a and 6b, in `strikes`, and of `evaluate`, `verlet_step` and `fire` in `works`, which `run_melts` works by too.
// A crate of its own, so that what is left of `replay` is short.
#![tactic(auto)]

pub mod masks;
pub mod records;
mod strikes;
pub mod works;

ghost use Rattle.std.specs.Prelude.{◌≡◌, [], IfNone};

use replay_words::{Answer, Case, Tables};
use works::Kind;

fn told(call: u64, case: Case, tables: &mut Tables, out: &mut Answer) -> Option<()> {
    match call {
        0x55 => works::plain_case(Kind::Evaluate, case, tables, out),
        0x57 => works::masked_case(Kind::Evaluate, case, tables, out),
        0x63 => works::plain_case(Kind::Step, case, tables, out),
        0x64 => works::plain_case(Kind::Finish, case, tables, out),
        0x67 => works::masked_case(Kind::Step, case, tables, out),
        0x68 => works::masked_case(Kind::Finish, case, tables, out),
        0x69 => works::masked_case(Kind::Settle, case, tables, out),
        0x6a => strikes::strike_case(case, tables, out),
        0x6b => strikes::put_case(case, tables, out),
        _ => None,
    }
}

// The answer to a case; None, and no word, where the call is none of these or the words are not its arguments.
pub fn answer(call: u64, words: &[u64], tables: &mut Tables, out: &mut Answer) -> Option<()>
    ensures { IfNone result (out.new ≡ []) }
{
    out.clear();
    let answered = told(call, Case::new(words), tables, out);
    if answered.is_none() {
        out.clear();
    }
    answered
}
