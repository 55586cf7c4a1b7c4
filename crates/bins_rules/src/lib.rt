// 01's rules of a grid and of a list in leaves, for both frames: total, no public call. A crate of its own, so that each wrong program is tried once and lightly.
#![tactic(auto)]

ghost use Rattle.std.specs.Prelude.{◌≡◌, ◌&&◌, ◌+◌, ◌-◌, min, ltb, leb};

// "any periodic axis has floor(width/radius) below 3".
pub fn is_narrow(round: bool, bins: u64) -> bool
    ensures { result ≡ round && ltb bins 3 }
{
    round & (bins < 3)
}

// "fewer than 8 cells".
pub fn is_few(cells: u64) -> bool
    ensures { result ≡ ltb cells 8 }
{
    cells < 8
}

// "Edges 1 to 2^20".
pub fn is_edge(e: u32) -> bool
    ensures { result ≡ ltb 0 e && leb e 1048576 }
{
    (0 < e) & (e <= 1048576)
}

// A bin past the last is the last: a fraction of 1 lies there.
pub fn at_most(b: u64, last: u16) -> u16
    ensures { result ≡ min b last }
{
    if b < last as u64 {
        return b as u16;
    }
    last
}

// How many pairs are listed after one more; no list is so long that it stays.
pub fn one_more(n: usize) -> usize
    ensures { result ≡ min (n + 1) 18446744073709551615 }
{
    if n < 18446744073709551615 {
        return n + 1;
    }
    n
}

// The checks: the candidates that were counted, less the exclusion rows among them.
pub fn checks_of(counted: usize, excluded: u64) -> usize
    ensures { result ≡ counted - excluded }
{
    if excluded as usize <= counted {
        return counted - excluded as usize;
    }
    0
}
