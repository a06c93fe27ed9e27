// The program for game files: opens the file that is named, reads it, calls the one function that makes the output, and writes that: a listing
// to standard output, what is wrong to standard error.
#![tactic(auto)]

ghost use Rattle.std.specs.Prelude.{◌≡◌, length};

use dis_text::Shown;
use std::env::FillError;
use std::fmt::InlineText;
use std::fs::File;
use std::rt::Env;
use std::{io, str};

// One byte more than the longest image: what is longer is refused with 1 by what was read of it.
const IMAGE: usize = 65_537;

// 77 bytes for each of 65,536 positions, as long as an output can be: DisFits in crates/dis_text/specs.
const OUTPUT: usize = 5_046_272;

// The rooms have these lengths by contract, so that no slip in a number above is compiled.
fn image() -> [u8; IMAGE]
    ensures { 65537 ≡ length result }
{
    runner::filled(0)
}

fn output() -> [u8; OUTPUT]
    ensures { 5046272 ≡ length result }
{
    runner::filled(0)
}

// How many arguments there are, the program's own name among them.
fn arg_count(rt: &HostRuntime) -> usize {
    (0..usize::MAX)
        .find(|i| matches!(rt.arg(*i, &mut []), Err(FillError::NotPresent)))
        .unwrap_or(usize::MAX)
}

// Puts argument i and byte 0 at a place: the next place, if they leave some of the room.
fn put(rt: &HostRuntime, i: usize, words: &mut [u8], at: usize) -> Option<usize> {
    let room = words.get_mut(at..)?;
    let n = rt.arg(i, room).ok()?;
    *room.get_mut(n)? = 0;
    Some(at + n + 1)
}

// The words after the file's name, each ended by byte 0, if they leave some of the room.
fn gather<'a>(rt: &HostRuntime, words: &'a mut [u8]) -> Option<&'a [u8]> {
    let mut at = 0;
    for i in 2..arg_count(rt) {
        at = put(rt, i, words, at)?;
    }
    if words.len() <= at {
        return None;
    }
    Some(&words[..at])
}

// An error's text without the number that ends it.
fn cause(text: &str) -> &str {
    text.split_once(" (os error ")
        .map_or(text, |(cause, _)| cause)
}

// Writes a line to standard error: what failed, a colon and the error's text.
fn fail(rt: &HostRuntime, what: &[u8], error: io::Error) -> io::Result<()> {
    let text = InlineText::<128>::of(error);
    let stderr = rt.stderr();
    stderr.write_all(what)?;
    stderr.write_all(b": ")?;
    stderr.write_all(cause(text.as_str()).as_bytes())?;
    stderr.write_all(b"\n")
}

fn show(rt: &HostRuntime, words: &[u8], image: &[u8], out: &mut [u8]) -> io::Result<()> {
    match dis_text::dis_text(words, image, out) {
        Ok(Shown::Listing(n)) => rt.stdout().write_all(out.get(..n).unwrap_or(&[])),
        Ok(Shown::Message(n)) => rt.stderr().write_all(out.get(..n).unwrap_or(&[])),
        Err(_) => Ok(()),
    }
}

// Opens the file. std takes no name that is not text.
fn open_read(rt: &HostRuntime, name: &[u8]) -> io::Result<File> {
    let name = str::from_utf8(name).map_err(|_| io::Error::from(io::ErrorKind::InvalidFilename))?;
    File::open(rt, name)
}

// Reads the file and shows what is made of it. Not in `dis`, where Rattle's own compiler would have the output on the stack twice.
fn read(rt: &HostRuntime, mut file: File, words: &[u8]) -> io::Result<()> {
    let mut image = image();
    let n = runner::read_full(&mut file, &mut image)?;
    drop(file);
    let mut out = output();
    show(rt, words, &image[..n], &mut out)
}

// Opens and reads the file.
fn dis(rt: &HostRuntime, name: &[u8], words: &[u8]) -> io::Result<()> {
    match open_read(rt, name) {
        Ok(file) => read(rt, file, words),
        Err(error) => {
            rt.stderr().write_all(b"dis: ")?;
            fail(rt, name, error)
        }
    }
}

fn main(rt: HostRuntime) -> io::Result<()> {
    let mut name = [0; 4096];
    let n = rt.arg(1, &mut name).unwrap_or(0);
    if n == 0 {
        return rt.stderr().write_all(
            b"usage: dis FILE [ENTRY..] [--pin HEX] [--wrapping] [--no-arrivals]\n",
        );
    }
    let mut words = [0; 65_536];
    let Some(words) = gather(&rt, &mut words) else {
        return rt
            .stderr()
            .write_all(b"dis: the arguments are longer than 65535 bytes\n");
    };
    dis(&rt, &name[..n], words)
}
