// The exported calls that replay a log from the unit, whole or in blocks.
ghost use Rattle.std.specs.Prelude.{◌≡◌};
ghost use Rattle.replay.specs.Log.{begun};
ghost use Rattle.replay.specs.Answers.{closed_of};
ghost use Rattle.replay.specs.Replay.{replay_answer, replay_counts};
ghost use Rattle.replay.specs.Block.{block_answer, block_log, block_counts};
ghost use Rattle.c_answers.specs.Modes.{mode_of};
ghost use Rattle.c_answers.specs.Reply.{refusal_number, values_of};
ghost use Rattle.c_answers.specs.Logs.{replay_values, log_of, words_of};

// Accepted: the lines, the interrupts and the free moves.
#[unsafe(no_mangle)]
pub extern "C" fn pw_replay(
    mode: u32,
    text: &[u8],
    image: &[u8],
    marks: &[u8],
    entries: &[u32],
    counts: &mut [u64],
    answer: &mut [i64; 5],
) -> u32
    ensures value { result
        ≡ refusal_number
        (replay_answer (mode_of mode) text.now image.now marks.now entries.now counts.old) }
    ensures answer_after { answer.new
        ≡ values_of replay_values
        (replay_answer (mode_of mode) text.now image.now marks.now entries.now counts.old) }
    ensures counts_after { counts.new
        ≡ replay_counts (mode_of mode) text.now image.now marks.now entries.now counts.old }
{
    pottagewing::pw_replay(mode, text, image, marks, entries, counts, answer)
}

// Makes the words a record before the first block.
#[unsafe(no_mangle)]
pub extern "C" fn pw_replay_open(words: &mut [u64; 7])
    ensures { words.new ≡ words_of begun }
{
    pottagewing::pw_replay_open(words)
}

// Accepted: the lines, the interrupts and the free moves of all blocks up to this one.
#[unsafe(no_mangle)]
pub extern "C" fn pw_replay_block(
    mode: u32,
    words: &mut [u64; 7],
    text: &[u8],
    image: &[u8],
    marks: &[u8],
    entries: &[u32],
    counts: &mut [u64],
    answer: &mut [i64; 5],
) -> u32
    ensures value { result
        ≡ refusal_number (block_answer (log_of words.old)
        (mode_of mode) text.now image.now marks.now entries.now counts.old) }
    ensures answer_after { answer.new
        ≡ values_of replay_values (block_answer (log_of words.old)
        (mode_of mode) text.now image.now marks.now entries.now counts.old) }
    ensures words_after { words.new
        ≡ words_of (block_log (log_of words.old)
        (mode_of mode) text.now image.now marks.now entries.now counts.old) }
    ensures counts_after { counts.new
        ≡ block_counts (log_of words.old)
        (mode_of mode) text.now image.now marks.now entries.now counts.old }
{
    pottagewing::pw_replay_block(mode, words, text, image, marks, entries, counts, answer)
}

// Accepted: the lines, the interrupts and the free moves of the log.
#[unsafe(no_mangle)]
pub extern "C" fn pw_replay_close(words: &[u64; 7], answer: &mut [i64; 5]) -> u32
    ensures value { result ≡ refusal_number (closed_of (log_of words.now)) }
    ensures answer_after { answer.new ≡ values_of replay_values (closed_of (log_of words.now)) }
{
    pottagewing::pw_replay_close(words, answer)
}
