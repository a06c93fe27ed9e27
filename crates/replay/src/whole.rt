// A whole log.
ghost use Rattle.std.specs.Prelude.{◌≡◌, ◌*◌, ◌≤◌, length};
ghost use Rattle.replay.specs.Answers.{replayed_of};
ghost use Rattle.replay.specs.Back.{taken_back, Counted};
ghost use Rattle.replay.specs.Replay.{replay_answer, replay_counts};

use crate::answer::{ReplayError, Totals};
use crate::log::Log;
use crate::{answer, feed, line};
use instruction::Mode;

// Takes the first lines of a text out of the counts again, the last of them first.
fn take_back(text: &[u8], lines: usize, counts: &mut [u64])
    requires { (7 * lines ≤ length text.now) × Counted text.now lines counts.old }
    ensures { counts.new ≡ taken_back text.now lines counts.old }
{
    let (all, _) = text.as_chunks();
    for k in (0..lines).rev() {
        counts[line::position_of(&all[k]) as usize] -= 1;
    }
}

// Replays a log over the marks: how many lines, interrupts and free moves there are, and in the counts one more for each line.
pub fn replay(
    mode: Mode,
    text: &[u8],
    image: &[u8],
    marks: &[u8],
    entries: &[u32],
    counts: &mut [u64],
) -> Result<Totals, ReplayError>
    ensures result_value { replayed_of result
        ≡ replay_answer mode text.now image.now marks.now entries.now counts.old }
    ensures counts_after { counts.new
        ≡ replay_counts mode text.now image.now marks.now entries.now counts.old }
{
    answer::check(image, marks, counts)?;
    let log = feed::feed(Log::new(), mode, text, image, marks, entries, counts);
    let answer = log.close();
    if answer.is_err() {
        take_back(text, log.lines as usize, counts);
    }
    answer
}
