// A line of the list: a letter, then eleven fields, each a space, a sign and ten upper-case hex digits; then byte 10.
ghost use Rattle.std.specs.Prelude.{◌≤◌, length};

pub const WIDTH: usize = 134;

#[derive(Clone, Copy)]
pub struct Line {
    pub letter: u8,
    pub numbers: [i64; 11],
}

// The number of ten digits.
fn number(digits: &[u8]) -> Option<i64>
    requires { length digits.now ≤ 10 }
{
    let mut n: u64 = 0;
    for b in digits {
        n = n * 16 + u64::from(runner::hex_digit(*b)?);
    }
    i64::try_from(n).ok()
}

fn field(text: &[u8]) -> Option<i64>
    requires { length text.now ≤ 12 }
{
    let [b' ', sign, digits @ ..] = text else {
        return None;
    };
    let n = number(digits)?;
    match sign {
        b'+' => Some(n),
        b'-' => n.checked_neg(),
        _ => None,
    }
}

// What a line tells, if it is well formed.
pub fn read(text: &[u8]) -> Option<Line> {
    let [letter, fields @ .., b'\n'] = text else {
        return None;
    };
    if text.len() != WIDTH {
        return None;
    }
    let (fields, _) = fields.as_chunks::<12>();
    let mut numbers = [0; 11];
    for (number, text) in numbers.iter_mut().zip(fields) {
        *number = field(text)?;
    }
    Some(Line {
        letter: *letter,
        numbers,
    })
}
