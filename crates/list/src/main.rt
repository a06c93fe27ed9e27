// The listing program: reads standard input, calls the one function that makes the output of it, and writes that.
#![tactic(auto)]

ghost use Rattle.std.specs.Prelude.{◌≡◌, length};

use std::io;

// One byte more than the longest input that is not malformed: what is longer is refused with 13 by what was read of it.
const INPUT: usize = 50_433;

// As long as an output can be: OutputFits in crates/list_text/specs.
const OUTPUT: usize = 983_040;

// The rooms have these lengths by contract, so that no slip in a number above is compiled.
fn input() -> [u8; INPUT]
    ensures { 50433 ≡ length result }
{
    runner::filled(0)
}

fn output() -> [u8; OUTPUT]
    ensures { 983040 ≡ length result }
{
    runner::filled(0)
}

// Not in `main`, where the room for the output would be filled before the input is read, and once more after it.
#[inline(never)]
fn show(rt: &HostRuntime, text: &[u8]) -> io::Result<()> {
    let mut out = output();
    if let Ok(n) = list_text::list_text(text, &mut out)
        && let Some(written) = out.get(..n)
    {
        rt.write_all(written)?;
    }
    Ok(())
}

fn main(rt: HostRuntime) -> io::Result<()> {
    let mut text = input();
    let n = runner::read_full(&mut rt.stdin(), &mut text)?;
    show(&rt, &text[..n])
}
