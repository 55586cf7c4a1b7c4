// Calls that no line of the replay asks for: `of_bits`, a line of the bits of each float made; `argon`, its numbers; `listed` and `atoms_in`, for each part
// the number and place of its `.._asked`, its length and a digest.
use crate::{frames, pair_lists, show};
use answer::Refusal;
use neighbor::State;

fn back(w: u64) -> u64 {
    float::to_bits(float::of_bits(w))
}

// A zero, the least number, 1, -1, an infinity, three patterns of a not-a-number.
fn bits() {
    show::put(back(9223372036854775808));
    show::put(back(1));
    show::put(back(4607182418800017408));
    show::put(back(13830554455654793216));
    show::put(back(18442240474082181120));
    show::put(back(9218868437227405313));
    show::put(back(9221120237041090561));
    show::end(back(18446744073709551615));
}

fn argon() {
    let lj = potentials_calls::argon();
    show::put(float::to_bits(lj.epsilon));
    show::put(float::to_bits(lj.sigma));
    show::put(float::to_bits(lj.cutoff));
    show::put_flag(lj.shift);
    show::end_line();
}

fn put_part(asked: Result<(), Refusal>, part: &[u32]) {
    show::put_head(asked);
    show::put(part.len() as u64);
    show::end(frames::digest(part));
}

// Of three rows and half a row: two, all, one more than are there.
fn listed(count: u32) {
    let pairs = [0u32, 1, 0, 2, 1, 2, 7];
    let s = State {
        pairs: count,
        ..pair_lists::list(1.0, 0.0)
    };
    put_part(
        neighbor::listed_asked(s, &pairs),
        neighbor::listed(s, &pairs),
    );
}

// Of three cells, the second empty: each, one more than are there, and a cell whose starts fall.
fn atoms(cell: usize, last: u32) {
    let starts = [0u32, 2, 2, last];
    let items = [5u32, 6, 7];
    put_part(
        bins::atoms_in_asked(cell, &starts, &items),
        bins::atoms_in(cell, &starts, &items),
    );
}

pub(crate) fn all() {
    bits();
    argon();
    listed(2);
    listed(3);
    listed(4);
    atoms(0, 3);
    atoms(1, 3);
    atoms(2, 3);
    atoms(3, 3);
    atoms(2, 1);
    atoms(2, 4);
}
