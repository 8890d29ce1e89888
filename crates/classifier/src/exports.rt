// The classifier for programs in C and Rust: numbers and lent slices only (include/pyrathene.h).
ghost use Rattle.std.specs.Prelude.{◌≡◌, min, length};
ghost use Rattle.classifier.specs.Instructions.{length_of};
ghost use Rattle.classifier.specs.Transfers.{transfer_of, type_of};
ghost use Rattle.classifier.specs.Exports.{classified};

use crate::runs::{LONG, sort};
use crate::tables::{filled_table, look_up};

// The number of a word's type: 0 for none, and a branch is 5 if taken, else 4. The switch zc says whether the machine
// has Zcmp and Zcmt.
#[unsafe(no_mangle)]
pub extern "C" fn ctr_classify(word: u32, taken: bool, zc: bool) -> u8
    ensures { result ≡ type_of (transfer_of zc word) taken }
{
    let i = crate::classify(word, zc);
    let t = i.transfer;
    crate::type_number(t, taken)
}

// The length of a word's instruction in bytes: 4 if its two low bits are 11, else 2.
#[unsafe(no_mangle)]
pub extern "C" fn ctr_length(word: u32) -> u8
    ensures { result ≡ length_of word }
{
    crate::length(word)
}

// Puts the number of each word's type, with the switch zc and a branch as taken, into types, as many as both slices
// hold, and answers how many. The rest of types stays as it was.
#[unsafe(no_mangle)]
pub extern "C" fn ctr_classify_all(words: &[u32], zc: bool, types: &mut [u8]) -> usize
    ensures count { result ≡ min (length words.now) (length types.old) }
    ensures filled { types.new ≡ classified zc words.now types.old }
{
    if words.len().min(types.len()) < LONG {
        sort(words, types, |word| ctr_classify(word, true, zc))
    } else {
        let table = filled_table(zc);
        sort(words, types, |word| look_up(&table, zc, word))
    }
}
