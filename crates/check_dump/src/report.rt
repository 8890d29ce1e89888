// The line of a check on standard output.
use console::Complain;
use dump::{Reason, Rejection};
use history::put_path;
use text::Page;

// Room for the longest line.
const LONGEST: usize = 256;

fn refusal_words(number: u64) -> &'static [u8] {
    match number {
        6 => b"refused: not three words to an entry",
        _ => b"refused: odd base or an end past 2^64",
    }
}

fn reason_words(reason: Reason) -> &'static [u8] {
    match reason {
        Reason::SourceOutside => b": source outside the image: ",
        Reason::CutOff => b": word cut off by the image's end: ",
        Reason::TypeUnlike => b": type unlike the word's: ",
        Reason::TargetWrong => b": target wrong: ",
    }
}

// Entry i, why it does not fit, its addresses and its type.
fn put_misfit(line: &mut Page, words: &[u64], i: usize, reason: Reason) {
    line.put(b"entry ");
    line.put_decimal(i as u64);
    line.put(reason_words(reason));
    let (entries, _) = words.as_chunks::<3>();
    if let Some(&[source, target, data]) = entries.get(i) {
        put_path(line, source, target, data);
    }
}

pub(crate) fn print(rt: &(impl Print + Complain), answer: Result<(), Rejection>, words: &[u64]) {
    let mut buffer = [0u8; LONGEST];
    let mut line = Page::new(&mut buffer);
    match answer {
        Ok(()) => line.put(b"accepted"),
        Err(Rejection::Refused(number)) => line.put(refusal_words(number)),
        Err(Rejection::Misfit(i, reason)) => put_misfit(&mut line, words, i, reason),
    }
    line.put_byte(b'\n');
    if let Err(error) = rt.write_all(line.text()) {
        console::fail(&mut rt.complaints(), b"check_dump: standard output", error);
    }
}
