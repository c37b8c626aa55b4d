// What the programs do with files. What fails is named on standard error, beside the reason.
#![tactic(auto)]

ghost use Rattle.std.specs.Prelude.{◌≡◌, ◌<◌, length, take, IfSome, IfOk};
ghost use Rattle.std.specs.Io.KnownBytes.{Consumes, IsAtEnd};
ghost use Rattle.std.specs.Counts.{IsPrefixLen};
ghost use Rattle.files.specs.Read.{count_of};

use std::env::FillError;
use std::fmt::{Display, Formatter, InlineText};
use std::io::{Eprint, Error, ErrorKind, Print, Read};
use std::rt::{Env, Files};
use std::{fmt, fs, str};

// The number by which Linux says that a name is too long.
const NAME_TOO_LONG: i32 = 36;

// The number by which Linux says that an argument is none.
const INVALID_ARGUMENT: i32 = 22;

// How many arguments the program was started with, its own name among them.
pub fn argument_count<E: Env>(rt: &E) -> usize {
    for i in 0..usize::MAX {
        if matches!(rt.arg(i, &mut []), Err(FillError::NotPresent)) {
            return i;
        }
    }
    usize::MAX
}

// Puts an argument at the start of the buffer, and answers its length. One that is missing or longer than the buffer is named on standard error.
pub fn argument<E: Env + Eprint>(rt: &E, i: usize, what: &[u8], buf: &mut [u8]) -> Option<usize>
    ensures { IfSome result (λ n. IsPrefixLen n buf.new) }
{
    match rt.arg(i, buf) {
        Ok(n) => Some(n),
        Err(FillError::TooLong) => {
            fail(rt, what, Error::from_raw_os_error(NAME_TOO_LONG));
            None
        }
        Err(FillError::NotPresent) => {
            fail(rt, what, Error::from_raw_os_error(INVALID_ARGUMENT));
            None
        }
    }
}

// Opens a file for reading. A name that is no text is refused, since the library's names are text.
pub fn open_file<F: Files + Eprint>(rt: &F, path: &[u8]) -> Option<F::File> {
    let opened = match str::from_utf8(path) {
        Ok(path) => fs::open(rt, path),
        Err(_) => Err(Error::from(ErrorKind::InvalidFilename)),
    };
    match opened {
        Ok(file) => Some(file),
        Err(e) => {
            fail(rt, path, e);
            None
        }
    }
}

// Bytes as text, with the replacement character where they are none.
#[derive(Clone, Copy)]
struct Lossy<'a>(&'a [u8]);

impl Display for Lossy<'_> {
    fn fmt<W: fmt::Write>(&self, f: &mut Formatter<W>) -> fmt::Result {
        for chunk in self.0.utf8_chunks() {
            f.write_str(chunk.valid())?;
            if !chunk.invalid().is_empty() {
                f.write_str("\u{FFFD}")?;
            }
        }
        Ok(())
    }
}

// Writes a line to standard error: what failed, as the caller names it, a colon and the reason, without the number that the system gives it.
pub fn fail<E: Eprint>(rt: &E, what: &[u8], error: Error) {
    let text = InlineText::<256>::of(error);
    let words = text.as_str();
    let reason = match words.split_once(" (os error ") {
        Some((reason, _)) => reason,
        None => words,
    };
    let _ = eprintln!(rt; "{}: {reason}", Lossy(what));
}

// A read failed, which was named on standard error. So many bytes stand at the start of the buffer.
#[derive(Clone, Copy, PartialEq, Eq)]
pub struct Unread {
    pub count: usize,
}

// Reads until the buffer is full, the file ends or a read fails, and answers how many bytes stand at its start.
pub fn read_file<R: Read, E: Eprint>(
    rt: &E,
    file: &mut R,
    path: &[u8],
    buf: &mut [u8],
) -> Result<usize, Unread>
    ensures in_buffer { IsPrefixLen (count_of result) buf.new }
    ensures bytes { Consumes (R.remaining file.old) (R.remaining file.new) (take (count_of result) buf.new) }
    ensures end { IfOk result (λ n. n < length buf.new → IsAtEnd (R.remaining file.new)) }
{
    let mut at: usize = 0;
    // a while, since each read says for itself how far it came
    while at < buf.len() {
        let n = match file.read(&mut buf[at..]) {
            Ok(n) => n,
            Err(e) => {
                fail(rt, path, e);
                return Err(Unread { count: at });
            }
        };
        if n == 0 {
            return Ok(at);
        }
        at += n;
    }
    Ok(at)
}

// Reads once. At the end of the file there is nothing to read.
pub fn read_piece<R: Read, E: Eprint>(
    rt: &E,
    file: &mut R,
    path: &[u8],
    buf: &mut [u8],
) -> Result<usize, Unread>
    ensures in_buffer { IsPrefixLen (count_of result) buf.new }
    ensures bytes { Consumes (R.remaining file.old) (R.remaining file.new) (take (count_of result) buf.new) }
    ensures end { IfOk result (λ n. n ≡ 0 → 0 < length buf.new → IsAtEnd (R.remaining file.new)) }
{
    match file.read(buf) {
        Ok(count) => Ok(count),
        Err(e) => {
            fail(rt, path, e);
            Err(Unread { count: 0 })
        }
    }
}

// A write to standard output failed, which was named on standard error.
#[derive(Clone, Copy, PartialEq, Eq)]
pub struct Unwritten;

// Writes all bytes to standard output.
pub fn write_out<R: Print + Eprint>(rt: &R, bytes: &[u8]) -> Result<(), Unwritten> {
    match rt.write_all(bytes) {
        Ok(()) => Ok(()),
        Err(e) => {
            fail(rt, b"output", e);
            Err(Unwritten)
        }
    }
}
