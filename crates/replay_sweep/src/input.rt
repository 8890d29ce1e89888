// The rows on standard input, and parts of them.

// How many rows are well-formed, and how many after them are not.
pub(crate) const GOOD: usize = 512;

pub(crate) const BROKEN: usize = 48;

// The words of all rows, and the bytes of these.
pub(crate) const WORDS: usize = 2240;

const BYTES: usize = 17920;

// Reads all rows. Words that are missing are 0.
pub(crate) fn read_words(rt: &impl Input, words: &mut [u64; WORDS]) {
    let mut bytes = [0u8; BYTES];
    console::fill(&mut rt.reader(), &mut bytes);
    console::put_words(words, &bytes);
}

// The words from a place to an end, as far as there are any.
pub(crate) fn between(words: &[u64], first: usize, end: usize) -> &[u64] {
    let e = end.min(words.len());
    &words[first.min(e)..e]
}
