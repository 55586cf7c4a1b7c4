// The calls of replay on numbers, cells, sums, exclusions and lists. A crate of its own, so that it is proved beside what stands on the same level, and what
// is left of `replay` at the end is short. How a case is answered: replay/src/calls.rt.
#![tactic(auto)]

pub mod answers;
mod cells;
mod excluded;
mod floats;
mod neighbors;
pub mod records;
mod virials;

ghost use Rattle.std.specs.Prelude.{◌≡◌, [], IfNone};

use replay_words::{Answer, Case, Tables};

// Floats, cells, the virial.
fn numbers(call: u64, case: Case, tables: &mut Tables, out: &mut Answer) -> Option<()> {
    match call {
        0x01 => floats::one_case(float::root, case, out),
        0x02 => floats::one_case(float::floor, case, out),
        0x03 => floats::one_case(float::trunc, case, out),
        0x04 => floats::one_case(float::round, case, out),
        0x05 => floats::two_case(float::rem_euclid, case, out),
        0x06 => floats::one_case(float::abs, case, out),
        0x07 => floats::two_case(float::min, case, out),
        0x08 => floats::two_case(float::max, case, out),
        0x09 => floats::clamp_case(case, out),
        0x0a => floats::one_case(float::to_i64, case, out),
        0x0b => floats::one_case(float::to_u64, case, out),
        0x10 => cells::orthorhombic_case(case, out),
        0x11 => cells::cubic_case(case, out),
        0x12 => cells::lattice_case(cell::is_orthorhombic, cells::put_flag, case, out),
        0x13 => cells::lattice_case(cell::matrix, answers::put_rows, case, out),
        0x14 => cells::lattice_case(cell::volume, cells::put_float, case, out),
        0x15 => cells::lattice_case(cell::inverse, cells::put_inverse, case, out),
        0x16 => cells::vector_case(cell::to_fractional, case, out),
        0x17 => cells::vector_case(cell::to_cartesian, case, out),
        0x18 => cells::vector_case(cell::wrap, case, out),
        0x19 => cells::lattice_case(cell::perp_widths, answers::put_vec3, case, out),
        0x1a => cells::min_image_case(case, out),
        0x1b => cells::counted_image_case(case, out),
        0x20 => virials::merge_case(case, tables, out),
        0x21 => virials::add_pair_force_case(case, tables, out),
        0x22 => virials::virial_from_pair_case(case, out),
        0x23 => virials::scalar_virial_case(case, out),
        0x24 => virials::pressure_case(case, out),
        0x25 => virials::pressure_tensor_case(case, tables, out),
        0x26 => virials::to_gpa_case(case, out),
        0x27 => virials::zeros_case(case, tables, out),
        _ => None,
    }
}

// Exclusions and lists.
fn lists(call: u64, case: Case, tables: &mut Tables, out: &mut Answer) -> Option<()> {
    match call {
        0x30 => neighbors::new_case(case, out),
        0x31 => neighbors::search_radius_case(case, out),
        0x32 => excluded::exclude_case(case, tables, out),
        0x33 => excluded::set_exclusions_case(case, tables, out),
        0x34 => neighbors::question_case(neighbor::needs_rebuild, false, case, tables, out),
        0x35 => neighbors::build_case(false, false, case, tables, out),
        0x36 => neighbors::build_case(true, false, case, tables, out),
        0x37 => neighbors::builds_since_case(case, out),
        0x38 => neighbors::question_case(neighbor::outdated, true, case, tables, out),
        0x39 => neighbors::build_case(false, true, case, tables, out),
        0x3a => neighbors::build_case(true, true, case, tables, out),
        _ => None,
    }
}

// The answer to a case; None, and no word, where the call is none of these or the words are not its arguments.
pub fn answer(call: u64, words: &[u64], tables: &mut Tables, out: &mut Answer) -> Option<()>
    ensures { IfNone result (out.new ≡ []) }
{
    out.clear();
    let case = Case::new(words);
    let answered = if call < 0x30 {
        numbers(call, case, tables, out)
    } else {
        lists(call, case, tables, out)
    };
    if answered.is_none() {
        out.clear();
    }
    answered
}
