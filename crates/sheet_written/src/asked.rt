// The tests of what is to be written: 1, 2, 3, 5.
ghost use Rattle.std.specs.Prelude.{◌≡◌, leb};
ghost use Rattle.lists.specs.Lists.{every};
ghost use Rattle.sheet_written.specs.Write.{uneven_rows, table_fits, write_asked};

use answer::Refusal;
use frame::Frame;

fn uneven(xs: usize, table: usize) -> bool
    ensures { result ≡ uneven_rows xs table }
{
    (xs % 3 != 0) | (table % 2 != 0)
}

// Each number has four digits.
fn four_digits(table: &[u32]) -> bool
    ensures { result ≡ every (λ k. leb k 65535) table.now }
{
    table.iter().all(|atom| *atom <= 65535)
}

fn table_fits(table: &[u32]) -> bool
    ensures { result ≡ table_fits table.now }
{
    if 1024 < table.len() / 2 {
        return false;
    }
    let ascending = exclusions::kernel::is_table(table);
    let short = four_digits(table);
    ascending & short
}

pub(crate) fn asked(f: Frame, xs: &[u32], table: &[u32]) -> Result<(), Refusal>
    ensures { result ≡ write_asked f xs.now table.now }
{
    if uneven(xs.len(), table.len()) {
        return Err(Refusal::Lengths);
    }
    let n = xs.len() / 3;
    if 1024 < n {
        return Err(Refusal::TooMany { atoms: n });
    }
    if !frame::asked::ranges_ok(f, xs) {
        return Err(Refusal::Range);
    }
    if !table_fits(table) {
        return Err(Refusal::Order);
    }
    Ok(())
}
