// A whole-number frame whose radius is one past half of its edge: 16,384 atoms are refused 3, and with one atom more 2 comes first. A line a build, as of the
// other frames. Nothing lent changes.
use crate::frames::MARK;
use crate::{frames, show};
use replay_words::filled;

fn build(xs: &[u32]) {
    let mut pairs = [MARK; 4];
    let mut starts = [MARK; 9];
    let mut items: [u32; 16390] = filled(MARK);
    let f = frames::boxed(320, 320, 320, 161);
    frames::put_built(frame::build(f, xs, &[], &mut pairs, &mut starts, &mut items));
    show::put(frames::digest(&pairs));
    show::put(frames::digest(&starts));
    show::end(frames::digest(&items));
}

fn most() {
    let xs: [u32; 49152] = filled(0);
    build(&xs);
}

fn over() {
    let xs: [u32; 49155] = filled(0);
    build(&xs);
}

pub(crate) fn all() {
    most();
    over();
}
