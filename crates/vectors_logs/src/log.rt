// A log replayed whole and in blocks, over counts that are lent anew each time.
use instruction::Mode;
use replay::{Log, ReplayError, Totals};
use std::iter;

// What a case lends.
#[derive(Clone, Copy)]
pub struct Lent<'a> {
    pub mode: Mode,
    pub text: &'a [u8],
    pub image: &'a [u8],
    pub marks: &'a [u8],
    pub entries: &'a [u32],
    // The counts before, and those once the lines before the first bad one are taken.
    pub before: &'a [u64],
    pub after: &'a [u64],
}

// Whether what is lent is refused, before any line.
fn is_lent(wanted: Result<Totals, ReplayError>) -> bool {
    matches!(wanted, Err(ReplayError::View(_)))
}

impl Lent<'_> {
    // A block after what a log has taken.
    fn take(&self, log: Log, block: &[u8], now: &mut [u64]) -> replay::Fed {
        replay::take_block(
            log,
            self.mode,
            block,
            self.image,
            self.marks,
            self.entries,
            now,
        )
    }

    // The log whole: a refusal leaves the counts.
    fn is_whole(&self, wanted: Result<Totals, ReplayError>, now: &mut [u64]) -> bool {
        runner::copy(self.before, 0, now);
        let answer = replay::replay(
            self.mode,
            self.text,
            self.image,
            self.marks,
            self.entries,
            now,
        );
        let left = if wanted.is_ok() {
            self.after
        } else {
            self.before
        };
        answer == wanted && &*now == left
    }

    // The log as one block: where what is lent is refused, so is the block.
    fn is_block(&self, wanted: Result<Totals, ReplayError>, now: &mut [u64]) -> bool {
        runner::copy(self.before, 0, now);
        let fed = self.take(Log::new(), self.text, now);
        !is_lent(wanted) || fed.answer == wanted
    }

    // After blocks the counts are those of the lines before the first bad one. Where each block was refused for what is lent, no line was
    // taken.
    fn is_closed(&self, log: Log, wanted: Result<Totals, ReplayError>, now: &[u64]) -> bool {
        let closed = if is_lent(wanted) {
            Ok(Totals {
                lines: 0,
                interrupts: 0,
                free: 0,
            })
        } else {
            wanted
        };
        log.close() == closed && now == self.after
    }

    // The log in an empty block, and then one for each byte.
    fn is_in_bytes(&self, wanted: Result<Totals, ReplayError>, now: &mut [u64]) -> bool {
        runner::copy(self.before, 0, now);
        let mut log = Log::new();
        for block in iter::once(&self.text[..0]).chain(self.text.chunks(1)) {
            log = self.take(log, block, now).log;
        }
        self.is_closed(log, wanted, now)
    }

    // The log in two blocks.
    fn is_cut(&self, at: usize, wanted: Result<Totals, ReplayError>, now: &mut [u64]) -> bool {
        let Some((first, second)) = self.text.split_at_checked(at) else {
            return false;
        };
        runner::copy(self.before, 0, now);
        let log = self.take(Log::new(), first, now).log;
        let log = self.take(log, second, now).log;
        self.is_closed(log, wanted, now)
    }

    // The log whole, as one block, in blocks of one byte, and in two blocks that are cut at every place.
    pub fn holds(&self, wanted: Result<Totals, ReplayError>, now: &mut [u64]) -> bool {
        if !self.is_whole(wanted, now)
            || !self.is_block(wanted, now)
            || !self.is_in_bytes(wanted, now)
        {
            return false;
        }
        for at in 0..self.text.len() {
            if !self.is_cut(at, wanted, now) {
                return false;
            }
        }
        self.is_cut(self.text.len(), wanted, now)
    }
}
