// A log replayed whole or in blocks, answered by replies.
ghost use Rattle.std.specs.Prelude.{◌≡◌};
ghost use Rattle.replay.specs.Log.{begun};
ghost use Rattle.replay.specs.Answers.{closed_of};
ghost use Rattle.replay.specs.Replay.{replay_answer, replay_counts};
ghost use Rattle.replay.specs.Block.{block_answer, block_log, block_counts};
ghost use Rattle.c_answers.specs.Reply.{reply_of};
ghost use Rattle.c_answers.specs.Logs.{replay_values, log_of, words_of};

use crate::into_reply::IntoReply;
use crate::log_words;
use crate::reply::Reply;
use instruction::Mode;
use replay::Log;

// Accepted: the lines, the interrupts and the free moves.
pub fn replay(
    mode: Mode,
    text: &[u8],
    image: &[u8],
    marks: &[u8],
    entries: &[u32],
    counts: &mut [u64],
) -> Reply
    ensures value { result
        ≡ reply_of replay_values
        (replay_answer mode text.now image.now marks.now entries.now counts.old) }
    ensures counts_after { counts.new
        ≡ replay_counts mode text.now image.now marks.now entries.now counts.old }
{
    replay::replay(mode, text, image, marks, entries, counts).into_reply()
}

// Makes the words a record before the first block.
pub fn replay_open(words: &mut [u64; 7])
    ensures { words.new ≡ words_of begun }
{
    *words = log_words::words_of(Log::new());
}

// Accepted: the lines, the interrupts and the free moves of all blocks up to this one.
pub fn replay_block(
    mode: Mode,
    words: &mut [u64; 7],
    text: &[u8],
    image: &[u8],
    marks: &[u8],
    entries: &[u32],
    counts: &mut [u64],
) -> Reply
    ensures value { result
        ≡ reply_of replay_values (block_answer (log_of words.old)
        mode text.now image.now marks.now entries.now counts.old) }
    ensures words_after { words.new
        ≡ words_of (block_log (log_of words.old)
        mode text.now image.now marks.now entries.now counts.old) }
    ensures counts_after { counts.new
        ≡ block_counts (log_of words.old)
        mode text.now image.now marks.now entries.now counts.old }
{
    let log = log_words::log_of(words);
    let fed = replay::take_block(log, mode, text, image, marks, entries, counts);
    *words = log_words::words_of(fed.log);
    fed.answer.into_reply()
}

// Accepted: the lines, the interrupts and the free moves of the log.
pub fn replay_close(words: &[u64; 7]) -> Reply
    ensures { result ≡ reply_of replay_values (closed_of (log_of words.now)) }
{
    log_words::log_of(words).close().into_reply()
}
