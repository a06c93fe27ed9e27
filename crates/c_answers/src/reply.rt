// What an exported call hands over: 0 or the number of a refusal, and five values.
ghost use Rattle.std.specs.Prelude.{◌≡◌};
ghost use Rattle.c_answers.specs.Reply.{reply};

#[derive(Clone, Copy, Debug, PartialEq, Eq)]
pub struct Reply {
    pub number: u32,
    pub values: [i64; 5],
}

impl Reply {
    // The values given, and 0 for each that is missing.
    pub fn new(number: u32, given: &[i64]) -> Self
        ensures { result ≡ reply number given.now }
    {
        let mut values = [0; 5];
        let n = given.len().min(values.len());
        values[..n].copy_from_slice(&given[..n]);
        Self { number, values }
    }

    // The values go into the caller's room, and the number is the answer.
    pub fn give(self, answer: &mut [i64; 5]) -> u32
        ensures value { result ≡ self.number }
        ensures answer_after { answer.new ≡ self.values }
    {
        answer.copy_from_slice(&self.values);
        self.number
    }
}
