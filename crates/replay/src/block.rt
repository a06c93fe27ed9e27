// A log in blocks, cut at any byte.
ghost use Rattle.std.specs.Prelude.{◌≡◌};
ghost use Rattle.replay.specs.Answers.{replayed_of};
ghost use Rattle.replay.specs.Block.{block_answer, block_log, block_counts};

use crate::answer::{ReplayError, Totals};
use crate::log::Log;
use crate::{answer, feed};
use instruction::Mode;

// The record after a block, and what the block is answered with.
#[derive(Clone, Copy, Debug, PartialEq, Eq)]
pub struct Fed {
    pub log: Log,
    pub answer: Result<Totals, ReplayError>,
}

// A block of a log, of any bytes or none.
pub fn take_block(
    log: Log,
    mode: Mode,
    text: &[u8],
    image: &[u8],
    marks: &[u8],
    entries: &[u32],
    counts: &mut [u64],
) -> Fed
    ensures answer_value { replayed_of result.answer
        ≡ block_answer log mode text.now image.now marks.now entries.now counts.old }
    ensures log_value { result.log
        ≡ block_log log mode text.now image.now marks.now entries.now counts.old }
    ensures counts_after { counts.new
        ≡ block_counts log mode text.now image.now marks.now entries.now counts.old }
{
    if log.refusal != 0 {
        let answer = log.told();
        return Fed { log, answer };
    }
    if let Err(e) = answer::check(image, marks, counts) {
        let answer = Err(ReplayError::View(e));
        return Fed { log, answer };
    }
    let log = feed::feed(log, mode, text, image, marks, entries, counts);
    let answer = log.told();
    Fed { log, answer }
}
