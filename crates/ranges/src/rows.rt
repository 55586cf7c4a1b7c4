// Rows of two atom numbers in a lent table: pairs and bonds. No public call: refusal 4 of the crates above.
ghost use Rattle.std.specs.Prelude.{◌≡◌, ◌/◌, ◌<◌, length, get_or};
ghost use Rattle.lists.specs.Lists.{every, rows};
ghost use Rattle.ranges.specs.Rows.{is_absent, absent_of, is_below, ThereSays};

fn wide(x: u32) -> usize
    ensures { result ≡ x }
{
    x as usize
}

// Whether row k names an atom that is not there.
fn is_absent(table: &[u32], n: usize, k: usize) -> bool
    requires { k < length table.now / 2 }
    ensures { result ≡ is_absent n (get_or (rows table.now) k (0, 0)) }
{
    let i = wide(table[2 * k]);
    let j = wide(table[2 * k + 1]);
    !((i < n) & (j < n))
}

// Whether each number is below n. It looks at all of them: no branch but the loop's own, so that four go in an instruction.
fn all_below(table: &[u32], n: u32) -> bool
    ensures { result ≡ every (is_below n) table.now }
{
    let mut ok = true;
    for x in table {
        ok = ok & (*x < n);
    }
    ok
}

// Whether every atom is there, as far as one look at the whole table says.
fn all_there(table: &[u32], n: usize) -> bool
    ensures { ThereSays table.now n result }
{
    if n < 4294967296 {
        return all_below(table, n as u32);
    }
    false
}

// The first row that names an atom not there, or the number of rows where there is none. Most often there is none.
pub fn first_absent(table: &[u32], n: usize) -> usize
    ensures { result ≡ absent_of n (rows table.now) }
{
    let m = table.len() / 2;
    if all_there(table, n) {
        return m;
    }
    for k in 0..m {
        if is_absent(table, n, k) {
            return k;
        }
    }
    m
}
