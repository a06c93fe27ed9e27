// The unlisting program: reads a listing from standard input, calls the one function that makes image lines of it, and writes those. Its one
// argument is the image's length.
#![tactic(auto)]

ghost use Rattle.std.specs.Prelude.{◌≡◌, length};

use std::io;
use std::rt::Env;

// 77 bytes for each of 65,536 positions, as long as a listing with arrivals can be, and one byte more, by which a longer text is noticed.
const LISTING: usize = 5_046_273;

// The image lines of 65,536 bytes.
const OUTPUT: usize = 133_120;

// The rooms have these lengths by contract, so that no slip in a number above is compiled.
fn listing() -> [u8; LISTING]
    ensures { 5046273 ≡ length result }
{
    runner::filled(0)
}

fn output() -> [u8; OUTPUT]
    ensures { 133120 ≡ length result }
{
    runner::filled(0)
}

fn show(rt: &HostRuntime, text: &[u8], length: usize, out: &mut [u8]) -> io::Result<()> {
    if let Ok(n) = unlist_text::unlist_text(text, length, out)
        && let Some(lines) = out.get(..n)
    {
        rt.write_all(lines)?;
    }
    Ok(())
}

fn unlist(rt: &HostRuntime, length: usize) -> io::Result<()> {
    let mut text = listing();
    let n = runner::read_full(&mut rt.stdin(), &mut text)?;
    if n == text.len() {
        return rt
            .stderr()
            .write_all(b"unlist: the listing is longer than 5046272 bytes\n");
    }
    let mut out = output();
    show(rt, &text[..n], length, &mut out)
}

fn main(rt: HostRuntime) -> io::Result<()> {
    let mut word = [0; 4096];
    let n = rt.arg(1, &mut word).unwrap_or(0);
    match unlist_text::number(&word[..n]) {
        Some(length) => unlist(&rt, length),
        None => rt.stderr().write_all(
            b"usage: unlist LENGTH < LISTING, LENGTH in 1 to 9 decimal digits\n",
        ),
    }
}
