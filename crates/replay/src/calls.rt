// Which call a case asks for, by its number. A new call is a function NAME_case(case, tables, out) in the module of its group and a line in the `told` of its
// crate (`numbers` or `lists` of replay_lists); a new group is a module, here or in replay_lists, replay_frames or replay_melts, which have what takes long and
// what needs no term. A case takes its arguments one after the other, a table into the store of its name in `tables`; where one is missing, or a word is left
// over, it is no case, and answers None. Then it calls, and puts its answer together in `out`.
use crate::{angles, desks, forces, velocities};
use replay_words::{Answer, Case, Tables};

fn told(call: u64, case: Case, tables: &mut Tables, out: &mut Answer) -> Option<()> {
    match call {
        0x50 => forces::lj_pairs_case(case, tables, out),
        0x51 => forces::coulomb_pairs_case(case, tables, out),
        0x52 => forces::bonds_all_case(case, tables, out),
        0x53 => forces::lj_all_case(case, tables, out),
        0x54 => forces::coulomb_all_case(case, tables, out),
        0x56 => angles::angles_all_case(case, tables, out),
        0x58 => desks::lj_pairs_case(case, tables, out),
        0x59 => desks::lj_all_case(case, tables, out),
        0x5a => desks::species_row_case(case, tables, out),
        0x60 => velocities::kinetic_energy_case(case, tables, out),
        0x61 => velocities::temperature_case(case, tables, out),
        0x62 => velocities::berendsen_case(case, tables, out),
        _ => None,
    }
}

// The answer in `out`; None where the call is unknown or the words are not its arguments.
pub(crate) fn answer(
    call: u64,
    words: &[u64],
    tables: &mut Tables,
    out: &mut Answer,
) -> Option<()> {
    match call {
        0x00..=0x3f => replay_lists::answer(call, words, tables, out),
        0x40..=0x4f => replay_frames::answer(call, words, tables, out),
        0x55 | 0x57 | 0x63..=0x6b => replay_melts::answer(call, words, tables, out),
        _ => {
            out.clear();
            told(call, Case::new(words), tables, out)
        }
    }
}
