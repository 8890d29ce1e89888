// Reads little-endian 32-bit words from standard input and prints a line for each: the word, the
// number of its transfer type (a branch as taken) and the type's name. With --zc the switch is on.
#![tactic(auto)]

ghost use Rattle.std.specs.Prelude.{◌≤◌, length};

use console::{BLOCK, Complain, LONGEST_NAME};
use std::env::Env;
use std::io;
use std::io::Read;
use text::Page;

// No line is longer than 32 bytes, so a buffer of 65,536 has room for one more up to here.
const LAST_START: usize = 65504;

// The words of a block of 65,536 bytes.
const WORDS: usize = 16384;

// Room for the longest argument, and for words beside it.
const LONGEST: usize = 8192;

// What the arguments ask for: the lines of the words that are read, or usage.
#[derive(Clone, Copy)]
enum Task {
    Print { zc: bool },
    Usage,
}

// Room for the words of a block, their types and their lines.
#[derive(Drop)]
struct Room {
    words: [u32; WORDS],
    types: [u8; WORDS],
    out: [u8; BLOCK],
}

// The name of a type, by its number.
fn put_name(page: &mut Page, number: u8) {
    match number {
        5 => page.put(b"branch"),
        8 => page.put(b"indirect call"),
        9 => page.put(b"direct call"),
        10 => page.put(b"indirect jump"),
        11 => page.put(b"direct jump"),
        12 => page.put(b"co-routine swap"),
        13 => page.put(b"function return"),
        14 => page.put(b"other indirect jump"),
        15 => page.put(b"other direct jump"),
        _ => page.put(b"none"),
    }
}

fn put_line(page: &mut Page, word: u32, number: u8) {
    page.put_hex(u64::from(word), 8);
    page.put_byte(b' ');
    page.put_decimal(u64::from(number));
    page.put_byte(b' ');
    put_name(page, number);
    page.put_byte(b'\n');
}

// The whole words of the input, as many as there is room for. Answers how many.
fn take_words(input: &[u8], words: &mut [u32]) -> usize
    ensures { result ≤ length words.new }
{
    let (whole, _) = input.as_chunks::<4>();
    for (word, bytes) in words.iter_mut().zip(whole) {
        *word = u32::from_le_bytes(*bytes);
    }
    whole.len().min(words.len())
}

// Prints the lines of words with their types, or says why they could not be written.
fn print_lines(rt: &impl Print, words: &[u32], types: &[u8], out: &mut [u8]) -> io::Result<()> {
    let mut page = Page::new(out);
    for i in 0..words.len().min(types.len()) {
        put_line(&mut page, words[i], types[i]);
        if page.text().len() > LAST_START {
            rt.write_all(page.text())?;
            page.clear();
        }
    }
    rt.write_all(page.text())
}

impl Room {
    // Prints the lines of all whole words of the input, or says why they could not be written.
    fn print_words(&mut self, rt: &impl Print, input: &[u8], zc: bool) -> io::Result<()> {
        let count = take_words(input, &mut self.words);
        let whole = &self.words[..count];
        classifier::exports::ctr_classify_all(whole, zc, &mut self.types);
        print_lines(rt, whole, &self.types, &mut self.out)
    }
}

// Reads a block and prints its lines. Says whether there may be more to read.
fn print_block(
    rt: &(impl Print + Complain),
    from: &mut impl Read,
    input: &mut [u8],
    room: &mut Room,
    zc: bool,
) -> bool {
    let block = console::fill(from, input);
    let count = block.count;
    if let Err(error) = room.print_words(rt, text::before(input, count), zc) {
        console::fail(&mut rt.complaints(), b"classify: standard output", error);
        return false;
    }
    if count % 4 != 0 {
        console::write(&mut io::writer(rt), b"incomplete word\n");
    }
    if let Some(error) = block.error {
        console::fail(&mut rt.complaints(), b"classify: standard input", error);
        return false;
    }
    count == input.len()
}

// A proved loop has to end, and nothing says that the input does: the count of blocks is one that no
// run uses up.
fn print_all(rt: &(impl Print + Complain + Input), zc: bool) {
    let mut from = rt.reader();
    let mut input = [0u8; BLOCK];
    let mut room = Room {
        words: [0; WORDS],
        types: [0; WORDS],
        out: [0u8; BLOCK],
    };
    for _ in 0..u64::MAX {
        if !print_block(rt, &mut from, &mut input, &mut room, zc) {
            break;
        }
    }
}

fn tell_unknown(rt: &impl Complain, argument: &[u8]) {
    let mut buffer = [0u8; LONGEST];
    let mut line = Page::new(&mut buffer);
    line.put(b"classify: unknown argument ");
    line.put(argument);
    line.put_byte(b'\n');
    console::write(&mut rt.complaints(), line.text());
}

// What the arguments ask for, up to one that asks for usage or is unknown. An unknown one is told, and asks for nothing.
// One that is too long is read as an empty one.
fn read_task(rt: &(impl Env + Complain)) -> Option<Task> {
    let mut zc = false;
    for i in 1..console::arg_count(rt) {
        let mut buffer = [0u8; LONGEST_NAME];
        let length = console::arg(rt, i, &mut buffer).unwrap_or(0);
        let argument = text::before(&buffer, length);
        if text::is_same(argument, b"--zc") {
            zc = true;
        } else if text::is_same(argument, b"--help") {
            return Some(Task::Usage);
        } else {
            tell_unknown(rt, argument);
            return None;
        }
    }
    Some(Task::Print { zc })
}

fn print_usage(rt: &impl Print) {
    console::write(
        &mut io::writer(rt),
        b"usage: classify [--zc] <WORDS\nPrints a line for each instruction word: the word, the number of its transfer type (a branch as taken) and the type's name.\n  --zc  with table jumps and pop-returns (Zcmt and Zcmp) switched on\nThe words are little-endian, 32 bits each, a 16-bit instruction in the low half.\n",
    );
}

fn main(rt: HostRuntime) {
    match read_task(&rt) {
        Some(Task::Print { zc }) => print_all(&rt, zc),
        Some(Task::Usage) => print_usage(&rt),
        None => (),
    }
}
