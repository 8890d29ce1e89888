// The words for answers. Each is its index under a pattern at first.
use test_support::count;

// How many there are. A run is lent some of them.
pub(crate) const ROOM: usize = 128;

fn unanswered(pattern: u64, i: usize) -> u64 {
    pattern ^ i as u64
}

pub(crate) fn fill(answers: &mut [u64; ROOM], pattern: u64) {
    for (i, word) in answers.iter_mut().enumerate() {
        *word = unanswered(pattern, i);
    }
}

// How many words are as they were at first.
pub(crate) fn kept(answers: &[u64; ROOM], pattern: u64) -> u64 {
    let mut kept = 0;
    for (i, word) in answers.iter().enumerate() {
        count(&mut kept, *word == unanswered(pattern, i));
    }
    kept
}
