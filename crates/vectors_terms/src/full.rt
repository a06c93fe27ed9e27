// Sums that are nearly full, which no text reaches. For each of the eight: where the image just fits, its line and the sums are printed; with
// one more, 22 alone, whatever follows.
ghost use Rattle.std.specs.Prelude.{◌<◌, ◌≡◌, ◌≤◌, length};

use crate::blocks;
use report_text::{Sums, Term};
use runner::Tally;

// How many sums there are.
const ALL: usize = 8;

// How many bytes the blocks have.
const BLOCK: usize = 7;

// As long as what is printed of one image and the sums can be.
const PRINTED: usize = Term::MOST_PRINTED;

// The room has this length by contract, so that no slip in the constant above is compiled.
fn room() -> [u8; PRINTED]
    ensures { 512 ≡ length result }
{
    runner::filled(0)
}

// What is printed of a text of one image, and what is printed last where all sums were 0 before.
#[derive(Clone, Copy)]
struct Case {
    text: &'static [u8],
    // The same with another image after it.
    followed: &'static [u8],
    told: &'static [u8],
    total: &'static [u8],
}

// An image that adds to each sum but the last.
const ACCEPTED: Case = Case {
    text: b"N\ta\n0000\t0001\n0100A0FF\n",
    followed: b"N\ta\n0000\t0001\n0100A0FF\n\nN\tc\n",
    told: b"a\t4\t3\t3\t1\t1\t1\n",
    total: b"T\t4\t3\t3\t1\t1\t1\t1\t0\n",
};

// An image that adds to the last, that of the refused images.
const REFUSED: Case = Case {
    text: b"N\tb\n0000\n68\n",
    followed: b"N\tb\n0000\n68\n\nN\tc\n",
    told: b"b\tR\t5\n",
    total: b"T\t0\t0\t0\t0\t0\t0\t0\t1\n",
};

// The sums are 0 but for one.
fn begun(at: usize, n: u64) -> Term
    requires { at < 8 }
{
    let mut each = [0; ALL];
    each[at] = n;
    let [
        length,
        steps,
        code,
        plain,
        shared,
        targets,
        accepted,
        refused,
    ] = each;
    Term {
        sums: Sums {
            length,
            steps,
            code,
            plain,
            shared,
            targets,
            accepted,
            refused,
        },
        held: 0,
        fresh: true,
        over: false,
    }
}

impl Case {
    // What stands before a sum in the last line, in which each field has one digit, what the image adds to the sum, and what stands after it.
    fn around(&self, at: usize) -> Option<(&[u8], u64, &[u8])>
        requires { at < 8 }
    {
        let (before, rest) = self.total.split_at_checked(2 * at + 2)?;
        let (digit, after) = rest.split_first()?;
        Some((before, u64::from(runner::decimal_digit(*digit)?), after))
    }

    // What is printed after the highest number, where the image's line and the last line's beginning stand before it.
    fn after_sum<'a>(&self, printed: &'a [u8], before: &[u8]) -> Option<&'a [u8]> {
        let total = printed.strip_prefix(self.told)?;
        let sum = total.strip_prefix(before)?;
        sum.strip_prefix(b"18446744073709551615")
    }

    // Where the image just fits, its line is printed, and the last line with the highest number in one field.
    fn is_reported(&self, at: usize) -> bool
        requires { at < 8 }
    {
        let Some((before, added, after)) = self.around(at) else {
            return false;
        };
        let mut room = room();
        let Some(n) = blocks::report(begun(at, u64::MAX - added), BLOCK, self.text, &mut room)
        else {
            return false;
        };
        room.get(..n)
            .and_then(|printed| self.after_sum(printed, before))
            .is_some_and(|rest| rest == after)
    }

    // With one more, 22 alone is printed.
    fn is_refused(&self, at: usize, text: &[u8]) -> bool
        requires { at < 8 }
    {
        let Some((_, added, _)) = self.around(at) else {
            return false;
        };
        if added == 0 {
            return false;
        }
        let mut room = room();
        let before = begun(at, u64::MAX - (added - 1));
        let n = blocks::report(before, BLOCK, text, &mut room);
        let printed = b"R\t22\n";
        n == Some(printed.len()) && room.starts_with(printed)
    }

    // The image ends its text, or another follows.
    fn holds(&self, at: usize) -> bool
        requires { at < 8 }
    {
        self.is_reported(at) && self.is_refused(at, self.text) && self.is_refused(at, self.followed)
    }
}

pub fn replay() -> Tally {
    let mut tally = Tally::default();
    for at in 0..ALL {
        let case = if at < ALL - 1 { ACCEPTED } else { REFUSED };
        tally.count(case.holds(at));
    }
    tally
}
