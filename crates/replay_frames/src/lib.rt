// The calls of replay on the whole-number frame and what stands on it. A crate of its own, as replay_lists is.
#![tactic(auto)]

mod counts;
mod frames;
mod labels;
mod sheets;
mod skins;

ghost use Rattle.std.specs.Prelude.{◌≡◌, [], IfNone};

use replay_words::{Answer, Case, Tables};

fn told(call: u64, case: Case, tables: &mut Tables, out: &mut Answer) -> Option<()> {
    match call {
        0x40 => frames::build_case(case, tables, out),
        0x41 => frames::squared_distance_case(case, out),
        0x42 => sheets::write_case(case, tables, out),
        0x44 => counts::add_shells_case(case, tables, out),
        0x45 => labels::label_case(case, tables, out),
        0x46 => skins::within_skin_case(case, tables, out),
        _ => None,
    }
}

// The answer to a case; None, and no word, where the call is none of these or the words are not its arguments.
pub fn answer(call: u64, words: &[u64], tables: &mut Tables, out: &mut Answer) -> Option<()>
    ensures { IfNone result (out.new ≡ []) }
{
    out.clear();
    let answered = told(call, Case::new(words), tables, out);
    if answered.is_none() {
        out.clear();
    }
    answered
}
