// The record of a replay in blocks, as the words that its caller keeps.
ghost use Rattle.std.specs.Prelude.{◌≡◌};
ghost use Rattle.c_answers.specs.Logs.{log_of, words_of};

use replay::Log;

pub fn log_of(words: &[u64; 7]) -> Log
    ensures { result ≡ log_of words.now }
{
    let [lines, interrupts, free, last, refusal, held, part] = *words;
    Log {
        lines,
        interrupts,
        free,
        last,
        refusal,
        held,
        part,
    }
}

pub fn words_of(log: Log) -> [u64; 7]
    ensures { result ≡ words_of log }
{
    [
        log.lines,
        log.interrupts,
        log.free,
        log.last,
        log.refusal,
        log.held,
        log.part,
    ]
}
