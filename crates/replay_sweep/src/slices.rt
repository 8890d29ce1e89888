// Slices of the well-formed rows, one after the other.
ghost use Rattle.std.specs.Prelude.{◌≤◌};

use crate::cuts::run_cuts;
use crate::input::{WORDS, between};
use crate::starts::start;
use crate::tally::Tally;
use crate::whole::{Trial, run_whole};
use recorder::State;
use recorder::steps::reset;
use test_support::Random;

const SLICES: usize = 2000;

// How many lengths there are, from 0 to 40 rows, and how many rows to start at.
const LENGTHS: usize = 41;

const STARTS: u64 = 472;

// Runs under way: the words to draw, the state that the next one starts from, and what was seen.
#[derive(Clone, Copy)]
pub(crate) struct Sweep {
    pub(crate) random: Random,
    pub(crate) state: State,
    pub(crate) tally: Tally,
}

// How many loose words there are behind the rows of slice k: some in one of five slices.
fn loose(k: usize) -> usize
    ensures { result ≤ 3 }
{
    if k % 5 == 4 { 1 + k / 5 % 3 } else { 0 }
}

// How many answer words slice k is lent for its n rows: as many as are needed, more, or too few.
fn lent(k: usize, n: usize) -> usize
    requires { n ≤ 40 }
{
    match k / 3 % 4 {
        0 | 1 => 2 * n,
        2 => 2 * n + 1 + k / 12 % 7,
        _ if k / 12 % 2 == 0 => (2 * n).saturating_sub(1),
        _ => n.saturating_sub(1),
    }
}

impl Sweep {
    // Slice k, whole and cut at each place. One of eight starts from a bad state, which is not gone on from.
    fn run_slice(&mut self, words: &[u64; WORDS], k: usize) {
        let x = self.random.draw();
        let pattern = self.random.draw();
        let n = k % LENGTHS;
        let first = (x % STARTS) as usize;
        let rows = between(words, 4 * first, 4 * first + 4 * n + loose(k));
        let bad = k % 8 == 7;
        let trial = Trial {
            start: start(self.state, bad, k / 8),
            pattern,
            lent: lent(k, n),
        };
        let whole = run_whole(&mut self.tally, &trial, rows);
        run_cuts(&mut self.tally, &trial, whole.end, rows, n);
        if !bad {
            self.state = whole.state;
        }
    }
}

// The switch is on, so that table jumps and pop-returns are transfers.
pub(crate) fn run_slices(words: &[u64; WORDS]) -> Sweep {
    let mut s = Sweep {
        random: Random::new(),
        state: reset(true),
        tally: Tally::default(),
    };
    for k in 0..SLICES {
        s.run_slice(words, k);
    }
    s
}
