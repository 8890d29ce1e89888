// Answers counted, and a digest of them all.
ghost use Rattle.std.specs.Prelude.{◌<◌};

use dump::Rejection;
use test_support::{count, digest};

// How many answers there are: accepted, four reasons and two refusals.
const ANSWERS: usize = 7;

#[derive(Clone, Copy, Default)]
pub(crate) struct Tally {
    pub(crate) counts: [u64; ANSWERS],
    pub(crate) digest: u64,
}

// The place of an answer's number among the counts.
fn place(number: u64) -> usize
    ensures { result < 7 }
{
    match number {
        0..=4 => number as usize,
        6 => 5,
        _ => 6,
    }
}

// The index of a misfit. Any other answer has 0.
fn index(answer: Result<(), Rejection>) -> u64 {
    match answer {
        Err(Rejection::Misfit(i, _)) => i as u64,
        _ => 0,
    }
}

impl Tally {
    // No answer, after those of a digest.
    pub(crate) fn after(digest: u64) -> Tally {
        Tally {
            digest,
            ..Tally::default()
        }
    }

    // One check, and its answer among the others.
    pub(crate) fn check(&mut self, code: &[u8], base: u64, entries: &[u64], zc: bool) {
        let answer = dump::check(code, base, entries, zc);
        let number = dump::number(answer);
        count(&mut self.counts[place(number)], true);
        let with_number = digest(self.digest, number);
        self.digest = digest(with_number, index(answer));
    }
}
