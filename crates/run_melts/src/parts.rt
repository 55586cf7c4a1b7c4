// The parts of the arrays that are lent. The whole where there is no such part.
pub(crate) fn front<T>(xs: &[T], n: usize) -> &[T] {
    if n <= xs.len() { &xs[..n] } else { xs }
}

pub(crate) fn front_mut<T>(xs: &mut [T], n: usize) -> &mut [T] {
    if n <= xs.len() { &mut xs[..n] } else { xs }
}

pub(crate) fn part_mut<T>(xs: &mut [T], from: usize, to: usize) -> &mut [T] {
    if from <= to && to <= xs.len() {
        &mut xs[from..to]
    } else {
        xs
    }
}
