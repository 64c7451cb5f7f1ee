// What the reads are made of. A function here may ask that its bytes are there, so none is called from outside the crate.
ghost use Rattle.std.specs.Prelude.{◌≡◌, not, ◌≤◌};
ghost use Rattle.cursor.specs.Answer.{pick};
ghost use Rattle.cursor.specs.Reads.{within};
ghost use Rattle.cursor.specs.Text.{units_of, high_surrogate, low_surrogate, view_of};
ghost use Rattle.cursor.specs.Pieces.{view_at};

use crate::{Part, View, unit_at};

// Whether n bytes stand in s from `at` on. The sum of the two is not made: it might not fit a number.
pub(crate) fn stands(s: &[u8], at: usize, n: usize) -> bool
    ensures { result ≡ within s.now at n }
{
    n <= s.len() && at <= s.len() - n
}

// Whether a unit is a high surrogate, and whether it is a low one.
pub(crate) fn is_high(u: u16) -> bool
    ensures { result ≡ high_surrogate u }
{
    0xD800 <= u && u <= 0xDBFF
}

pub(crate) fn is_low(u: u16) -> bool
    ensures { result ≡ low_surrogate u }
{
    0xDC00 <= u && u <= 0xDFFF
}

// Whether a unit that is a low surrogate or not may stand behind one that is a high surrogate or not.
pub(crate) fn may_follow(high: bool, low: bool) -> bool
    ensures { result ≡ pick high low (not low) }
{
    high == low
}

// The view of the text t, which starts at `at`: the units before the first zero unit, and whether they are well-formed as in `well_formed`.
// Every view is made here. (One loop does both: most texts are short, and where a loop ends is what takes the time.)
#[tactic(auto, using(crate::proofs::Units::units_length, crate::proofs::Units::zero_later, crate::proofs::Views::view_more))]
pub(crate) fn view(t: &[u8], at: usize) -> View
    ensures { result ≡ view_of at (units_of t.now) }
{
    let mut sound = true;
    let mut high = false;
    let units = t.len() / 2;
    for n in 0..units {
        let u = unit_at(t, n);
        if u == 0 {
            return viewed(at, n, sound & !high);
        }
        sound &= may_follow(high, is_low(u));
        high = is_high(u);
    }
    viewed(at, units, sound & !high)
}

// The view of n units.
fn viewed(at: usize, n: usize, sound: bool) -> View
    requires { n ≤ 9223372036854775807 }
    ensures { result ≡ view_at at n sound }
{
    View {
        part: Part {
            start: at,
            len: 2 * n,
        },
        sound,
    }
}
