// The specimens on standard input: three words each, an instruction word, its type and the way that it
// goes, from pc to its target.

// How many specimens there are, their words, and the bytes of these.
const SPECIMENS: usize = 136;

pub(crate) const WORDS: usize = 3 * SPECIMENS;

const BYTES: usize = 8 * WORDS;

// Reads all specimens. Words that are missing are 0.
pub(crate) fn read_words(rt: &impl Input, words: &mut [u64; WORDS]) {
    let mut bytes = [0u8; BYTES];
    console::fill(&mut rt.reader(), &mut bytes);
    console::put_words(words, &bytes);
}
