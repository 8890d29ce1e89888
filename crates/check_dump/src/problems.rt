// What goes wrong, a line on standard error each.
use console::Complain;
use std::io;
use text::Page;

// Room for the longest argument, and for words beside it.
const LONGEST: usize = 8192;

// A line of what is put on it.
fn tell<F: FnOnce(&mut Page<'_>)>(rt: &impl Complain, put_words: F)
    requires { F.IsAlwaysCallable put_words }
{
    let mut buffer = [0u8; LONGEST];
    let mut line = Page::new(&mut buffer);
    line.put(b"check_dump: ");
    put_words(&mut line);
    line.put_byte(b'\n');
    console::write(&mut rt.complaints(), line.text());
}

// A file that can't be opened or read: the system's words say why.
pub(crate) fn unreadable(rt: &impl Complain, name: &[u8], error: io::Error) {
    let mut buffer = [0u8; LONGEST];
    let mut line = Page::new(&mut buffer);
    line.put(b"check_dump: ");
    line.put(name);
    console::fail(&mut rt.complaints(), line.text(), error);
}

pub(crate) fn too_large(rt: &impl Complain, name: &[u8], most: u64) {
    tell(rt, |line| {
        line.put(name);
        line.put(b": more than ");
        line.put_decimal(most);
        line.put(b" bytes");
    });
}

// Bytes that are no whole word, after some words.
pub(crate) fn left_over(rt: &impl Complain, name: &[u8], count: u64, words: u64) {
    tell(rt, |line| {
        line.put(name);
        line.put(b": ");
        line.put_decimal(count);
        line.put(if count == 1 { b" byte" } else { b" bytes" });
        if words == 0 {
            line.put(b" and no word");
        } else {
            line.put(b" left over after word ");
            line.put_decimal(words - 1);
        }
    });
}

// An argument between words.
fn tell_of(rt: &impl Complain, before: &[u8], argument: &[u8], after: &[u8]) {
    tell(rt, |line| {
        line.put(before);
        line.put(argument);
        line.put(after);
    });
}

pub(crate) fn unknown_flag(rt: &impl Complain, flag: &[u8]) {
    tell_of(rt, b"unknown flag ", flag, b"");
}

pub(crate) fn missing(rt: &impl Complain, operand: &[u8]) {
    tell_of(rt, b"no ", operand, b" given");
}

pub(crate) fn unexpected(rt: &impl Complain, argument: &[u8]) {
    tell_of(rt, b"unexpected argument ", argument, b"");
}

pub(crate) fn no_number(rt: &impl Complain, base: &[u8]) {
    tell_of(rt, b"base ", base, b" is no number below 2^64");
}
