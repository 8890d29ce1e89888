// What the programs share: bytes to standard output and standard error, a buffer filled from a file or from
// standard input, files by their names, arguments, and lines that say why something failed.
#![tactic(auto)]

ghost use Rattle.std.specs.Prelude.{◌≡◌, ◌/◌, ◌<◌, ◌≤◌, ◌++◌, min, length, take, drop, IfOk, IsErrAnd, IsNone, IsTrue, IsUtf8};
ghost use Rattle.std.specs.Io.KnownBytes.{Appends, Consumes, IsAtEnd};
ghost use Rattle.std.specs.IoError.{error_kind};
ghost use Rattle.console.specs.Complaints.{AppendsComplaint};
ghost use Rattle.console.specs.Words.{words_of};

use std::env::{Env, FillError};
use std::fs::{self, Files};
use std::io;
use std::io::{ErrorKind, Read, Write};
use std::rt::Stderr;
use text::before;

// What has a standard error, for bytes that need not be text.
pub trait Complain {
    fn complaints(&self) -> Stderr;
}

impl Complain for HostRuntime {
    fn complaints(&self) -> Stderr {
        self.stderr()
    }
}

// What a buffer was filled with: how many bytes, and why a read failed, if one did. No Result: what came before a read
// that failed counts.
#[derive(Clone, Copy)]
pub struct Filled {
    pub count: usize,
    pub error: Option<io::Error>,
}

// The system's numbers of an argument that is missing and of one that is too long.
const EINVAL: i32 = 22;

const ENAMETOOLONG: i32 = 36;

// Room for the words that say why.
const LONGEST_REASON: usize = 256;

// Room for the longest name of a file that the system takes.
pub const LONGEST_NAME: usize = 4096;

// Room for much data at a time.
pub const BLOCK: usize = 65536;

// Writes all bytes, and says whether they were written.
pub fn write<W: Write>(to: &mut W, bytes: &[u8]) -> bool
    ensures { IsTrue result → Appends (W.contents to.old) (W.contents to.new) bytes.now }
{
    to.write_all(bytes).is_ok()
}

// Reads until the buffer is full, the input ends or a read fails.
pub fn fill<R: Read>(from: &mut R, buf: &mut [u8]) -> Filled
    ensures within { result.count ≤ length buf.new }
    ensures bytes { Consumes (R.remaining from.old) (R.remaining from.new) (take result.count buf.new) }
    ensures end { IsNone result.error → result.count < length buf.new → IsAtEnd (R.remaining from.new) }
{
    let mut count = 0;
    while count < buf.len() {
        match from.read(&mut buf[count..]) {
            Ok(0) => return Filled { count, error: None },
            Ok(more) => count += more,
            Err(error) => {
                return Filled {
                    count,
                    error: Some(error),
                };
            }
        }
    }
    Filled { count, error: None }
}

// Puts the 64-bit words of some bytes in place, each from its least significant byte on, as many as both hold, and
// answers how many.
pub fn put_words(words: &mut [u64], bytes: &[u8]) -> usize
    ensures count { result ≡ min (length words.old) (length bytes.now / 8) }
    ensures within { result ≤ length words.new }
    ensures put { words.new ≡ words_of result bytes.now ++ drop result words.old }
{
    let (eights, _) = bytes.as_chunks::<8>();
    let count = words.len().min(eights.len());
    for (i, eight) in eights[..count].iter().enumerate() {
        words[i] = u64::from_le_bytes(*eight);
    }
    count
}

// The file of this name, to be read. One that is no text names no file.
pub fn open<R: Files>(rt: &R, name: &[u8]) -> io::Result<R::File>
    ensures text { IfOk result (λ _. IsUtf8 name.now) }
    ensures no_text { (IsUtf8 name.now → ⊥) → IsErrAnd result (λ e. error_kind e ≡ ErrorKind.InvalidFilename) }
{
    match std::str::from_utf8(name) {
        Ok(path) => fs::open(rt, path),
        Err(_) => Err(io::Error::from(ErrorKind::InvalidFilename)),
    }
}

// How many arguments the program was started with, its own name among them.
pub fn arg_count(rt: &impl Env) -> usize {
    let mut first = [0u8; 1];
    (0..usize::MAX)
        .find(|i| matches!(rt.arg(*i, &mut first), Err(FillError::NotPresent)))
        .unwrap_or(usize::MAX)
}

// Puts argument i at the start of the buffer and answers its length, unless it is missing or longer than the buffer.
// Both error types are std's, so no From leads from one to the other.
pub fn arg(rt: &impl Env, i: usize, buf: &mut [u8]) -> io::Result<usize>
    ensures { IfOk result (λ n. n ≤ length buf.new) }
{
    match rt.arg(i, buf) {
        Ok(count) => Ok(count),
        Err(FillError::NotPresent) => Err(io::Error::from_raw_os_error(EINVAL)),
        Err(FillError::TooLong) => Err(io::Error::from_raw_os_error(ENAMETOOLONG)),
    }
}

// Where the system's words end in what an error displays: before its number in brackets.
fn words_end(text: &[u8]) -> usize {
    match text.iter().rposition(|b| *b == b'(') {
        Some(at) if at > 0 => at - 1,
        _ => text.len(),
    }
}

// Puts what an error displays at the start of the buffer, and answers how long it is.
fn put_error(buf: &mut [u8], error: io::Error) -> usize {
    let most = buf.len();
    let mut rest = &mut *buf;
    let _ = write!(rest, "{error}");
    most.saturating_sub(rest.len())
}

// A line: what failed, a colon and the system's words for why. Says whether it was written.
pub fn fail<W: Write>(to: &mut W, what: &[u8], error: io::Error) -> bool
    ensures { IsTrue result → AppendsComplaint (W.contents to.old) (W.contents to.new) what.now }
{
    let mut words = [0u8; LONGEST_REASON];
    let count = put_error(&mut words, error);
    let shown = before(&words, count);
    let end = if error.raw_os_error().is_some() {
        words_end(shown)
    } else {
        count
    };
    write_line(to, what, before(shown, end))
}

// What, a colon, words and the end of a line, each written whatever became of those before it.
fn write_line<W: Write>(to: &mut W, what: &[u8], words: &[u8]) -> bool
    ensures { IsTrue result → AppendsComplaint (W.contents to.old) (W.contents to.new) what.now }
{
    let named = write(to, what);
    let parted = write(to, b": ");
    let told = write(to, words);
    let ended = write(to, b"\n");
    named & parted & told & ended
}
