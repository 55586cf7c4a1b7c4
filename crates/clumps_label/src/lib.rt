// Which atoms hang together by listed pairs: each atom's label is the lowest atom that a chain of pairs reaches from it.
#![tactic(auto)]

mod forest;

ghost use Rattle.std.specs.Prelude.{◌≡◌};
ghost use Rattle.clumps_label.specs.Label.{lengths_off, LabelSays};

use answer::Refusal;
use ranges::rows::first_absent;

// 1: half a row of pairs, or labels not as many as the atoms.
fn lengths_off(n: usize, pairs: &[u32], labels: &[u32]) -> bool
    ensures { result ≡ lengths_off n pairs.now labels.now }
{
    !(pairs.len() % 2 == 0) | !(labels.len() == n)
}

// Labels of `count` atoms by a list of pairs, which may be turned round, repeated or of an atom with itself; how many clumps
// there are. 1, 2, 4 leave the labels as they came.
pub fn label(count: u32, pairs: &[u32], labels: &mut [u32]) -> Result<u64, Refusal>
    ensures { LabelSays count pairs.now labels.old result labels.new }
{
    let n = count as usize;
    if lengths_off(n, pairs, labels) {
        return Err(Refusal::Lengths);
    }
    if 16384 < n {
        return Err(Refusal::TooMany { atoms: n });
    }
    let row = first_absent(pairs, n);
    if row < pairs.len() / 2 {
        return Err(Refusal::NotThere { row: row });
    }
    crate::forest::plant(labels);
    crate::forest::link_all(labels, pairs);
    Ok(crate::forest::settle(labels) as u64)
}
