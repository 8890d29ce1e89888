// What goes wrong, a line on standard error each.
use crate::read_argument;
use console::{Complain, LONGEST_NAME};
use std::env::Env;
use std::io;
use text::Page;
use trace::Malformed;

// Room for the longest name of a file, and for words beside it.
const LONGEST: usize = 8192;

// Why nothing is replayed.
#[derive(Drop)]
pub(crate) enum Refusal {
    // The argument of this number.
    UnknownFlag(usize),
    NoTrace,
    DumpAndText,
    DumpOfSeveral,
}

// A line of what is put on it.
fn tell<F: FnOnce(&mut Page<'_>)>(rt: &impl Complain, put_words: F)
    requires { F.IsAlwaysCallable put_words }
{
    let mut buffer = [0u8; LONGEST];
    let mut line = Page::new(&mut buffer);
    line.put(b"replay: ");
    put_words(&mut line);
    line.put_byte(b'\n');
    console::write(&mut rt.complaints(), line.text());
}

pub(crate) fn refuse(rt: &(impl Env + Complain), refusal: Refusal) {
    match refusal {
        Refusal::UnknownFlag(i) => unknown_flag(rt, i),
        Refusal::NoTrace => tell(rt, |line| line.put(b"no trace given")),
        Refusal::DumpAndText => tell(rt, |line| {
            line.put(b"--dump goes without --answers and --state")
        }),
        Refusal::DumpOfSeveral => tell(rt, |line| line.put(b"--dump takes one trace")),
    }
}

fn unknown_flag(rt: &(impl Env + Complain), i: usize) {
    let mut buffer = [0u8; LONGEST_NAME];
    let flag = read_argument(rt, i, &mut buffer);
    tell(rt, |line| {
        line.put(b"unknown flag ");
        line.put(flag);
    });
}

// A file that can't be opened or read: the system's words say why.
pub(crate) fn unreadable(rt: &impl Complain, name: &[u8], error: io::Error) {
    let mut buffer = [0u8; LONGEST];
    let mut line = Page::new(&mut buffer);
    line.put(b"replay: ");
    line.put(name);
    console::fail(&mut rt.complaints(), line.text(), error);
}

pub(crate) fn malformed(rt: &impl Complain, name: &[u8], row: u64, word: Malformed) {
    tell(rt, |line| {
        line.put(name);
        line.put(b": row ");
        line.put_decimal(row);
        line.put(b": word ");
        line.put_decimal(u64::from(word));
        line.put(b" breaks a rule");
    });
}

// Bytes that are no whole row, after some rows.
pub(crate) fn left_over(rt: &impl Complain, name: &[u8], count: u64, rows: u64) {
    tell(rt, |line| {
        line.put(name);
        line.put(b": ");
        line.put_decimal(count);
        line.put(if count == 1 { b" byte" } else { b" bytes" });
        if rows == 0 {
            line.put(b" and no row");
        } else {
            line.put(b" left over after row ");
            line.put_decimal(rows - 1);
        }
    });
}
