// A line of the list: a letter, then 49 bytes of two upper-case hex digits each; then byte 10.
ghost use Rattle.std.specs.Prelude.{◌≡◌, length, slice_range};

pub const WIDTH: usize = 100;

#[derive(Clone, Copy)]
pub struct Line {
    pub letter: u8,
    values: [u8; 49],
}

impl Line {
    // Ten bytes of image.
    pub fn image(&self) -> &[u8]
        ensures { length result.now ≡ 10 }
    {
        &self.values[..10]
    }

    // Ten marks.
    pub fn marks(&self) -> &[u8]
        ensures { length result.now ≡ 10 }
    {
        &self.values[10..20]
    }

    // How much of the image, of the marks and of the rooms is lent.
    pub fn lengths(&self) -> [usize; 3] {
        let [n, k, m] = [self.values[20], self.values[21], self.values[22]];
        [usize::from(n), usize::from(k), usize::from(m)]
    }

    // The position that is asked about, its highest byte first.
    pub fn position(&self) -> u32 {
        let values = &self.values;
        u32::from_be_bytes([values[23], values[24], values[25], values[26]])
    }

    // The number that is answered.
    pub fn number(&self) -> u32 {
        u32::from(self.values[27])
    }

    // The answer's value.
    pub fn value(&self) -> i64 {
        i64::from(self.values[28])
    }

    // What ten bytes of a room are afterwards.
    pub fn bytes(&self) -> &[u8]
        ensures { length result.now ≡ 10 }
    {
        &self.values[29..39]
    }

    // What ten places are afterwards.
    pub fn places(&self) -> &[u8] {
        &self.values[39..]
    }
}

fn byte(digits: &[u8; 2]) -> Option<u8> {
    let [high, low] = digits;
    Some(runner::hex_digit(*high)? * 16 + runner::hex_digit(*low)?)
}

// What a line tells, if it is well formed.
pub fn read(text: &[u8]) -> Option<Line> {
    let [letter, bytes @ .., b'\n'] = text else {
        return None;
    };
    if text.len() != WIDTH {
        return None;
    }
    let (bytes, _) = bytes.as_chunks::<2>();
    let mut values = [0; 49];
    for (value, digits) in values.iter_mut().zip(bytes) {
        *value = byte(digits)?;
    }
    Some(Line {
        letter: *letter,
        values,
    })
}
