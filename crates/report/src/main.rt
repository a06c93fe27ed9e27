// The term report: reads standard input in blocks to its end, and writes each image's line once that image is complete, and the sums at last.
// It holds one block and one image's text, however long the term.
#![tactic(auto)]

use report_text::{Term, term};
use std::io;
use std::io::Read;

// How many bytes are read at once.
const BLOCK: usize = 65_536;

// Writes the bytes that a call printed.
fn show(rt: &HostRuntime, n: usize, out: &[u8]) -> io::Result<()> {
    rt.write_all(out.get(..n).unwrap_or(&[]))
}

// Takes a whole block: each call takes a byte at least. A refusal, which rooms of these lengths do not get, would end it.
fn feed(
    rt: &HostRuntime,
    before: Term,
    block: &[u8],
    held: &mut [u8; Term::MOST],
    out: &mut [u8; Term::MOST_PRINTED],
) -> io::Result<Term> {
    let mut term = before;
    let mut left = block;
    // How far a turn goes is what the call takes, so no iterator counts the turns.
    while !left.is_empty() {
        let Ok(taken) = term::take(term, left, held, out) else {
            break;
        };
        show(rt, taken.printed, out)?;
        term = taken.term;
        left = &left[taken.used..];
    }
    Ok(term)
}

// Blocks to the end of the input, or to the refusal 22. The loop counts its turns, up to a number that no input uses up, since nothing says
// that an input ends.
fn feed_all(
    rt: &HostRuntime,
    held: &mut [u8; Term::MOST],
    out: &mut [u8; Term::MOST_PRINTED],
) -> io::Result<Term> {
    let mut stdin = rt.stdin();
    let mut block = [0; BLOCK];
    let mut term = Term::new();
    for _ in 0..u64::MAX {
        if term.over {
            break;
        }
        let n = stdin.read(&mut block)?;
        if n == 0 {
            break;
        }
        term = feed(rt, term, &block[..n], held, out)?;
    }
    Ok(term)
}

fn main(rt: HostRuntime) -> io::Result<()> {
    let mut held = [0; Term::MOST];
    let mut out = [0; Term::MOST_PRINTED];
    let term = feed_all(&rt, &mut held, &mut out)?;
    match term::close(term, &held, &mut out) {
        Ok(n) => show(&rt, n, &out),
        Err(_) => Ok(()),
    }
}
