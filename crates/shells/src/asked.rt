// Which refusal a width of 0, or no totals, comes to.
ghost use Rattle.std.specs.Prelude.{◌≡◌};
ghost use Rattle.frame.specs.Build.{frame_asked};
ghost use Rattle.shells.specs.Steps.{before_order, refusal_of};

use answer::Refusal;
use frame::Frame;

// 1 and 2 come before it, 5 after it.
fn before_order(why: Refusal) -> Refusal
    ensures { result ≡ before_order why }
{
    if why.number() == 5 {
        return Refusal::Range;
    }
    why
}

pub(crate) fn refusal(f: Frame, xs: &[u32], table: &[u32], items: usize) -> Refusal
    ensures { result ≡ refusal_of (frame_asked f xs.now table.now items) }
{
    let a = frame::asked::asked(f, xs, table, items);
    match a {
        Ok(()) => Refusal::Range,
        Err(why) => before_order(why),
    }
}
