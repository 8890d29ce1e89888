// Rows with each malformed one in each place.
ghost use Rattle.std.specs.Prelude.{◌<◌, ◌≤◌};

use crate::input::{BROKEN, GOOD, WORDS, between};
use crate::slices::Sweep;
use crate::starts::start;
use crate::whole::{Trial, run_whole};

// How many rows are run at most, and their words.
const MOST: usize = 16;

const MOST_WORDS: usize = 64;

// The row of the input that is row i of n: malformed row b in one place, a well-formed one elsewhere.
fn row_of(n: usize, place: usize, b: usize, i: usize) -> usize
    requires n_bound { n ≤ 16 }
    requires b_bound { b < 48 }
    requires i_bound { i < 16 }
    ensures { result < 560 }
{
    if i == place { GOOD + b } else { 29 * n + i }
}

// The rows of n with malformed row b in a place.
fn rows_of(words: &[u64; WORDS], n: usize, place: usize, b: usize) -> [u64; MOST_WORDS]
    requires n_bound { n ≤ 16 }
    requires b_bound { b < 48 }
{
    let mut rows = [0; MOST_WORDS];
    for i in 0..MOST {
        let row = row_of(n, place, b, i);
        rows[4 * i..4 * i + 4].copy_from_slice(&words[4 * row..4 * row + 4]);
    }
    rows
}

// How many answer words n rows are lent: too few, as many as are needed, or more.
fn lent(n: usize, choice: usize) -> usize
    requires le_n { 1 ≤ n }
    requires n_bound { n ≤ 16 }
{
    match choice % 4 {
        0 => 2 * n - 1,
        1 | 2 => 2 * n,
        _ => 2 * n + 5,
    }
}

// One of seven malformed rows meets a bad state.
fn run_one(s: &mut Sweep, words: &[u64; WORDS], n: usize, place: usize, b: usize)
    requires le_n { 1 ≤ n }
    requires n_bound { n ≤ 16 }
    requires place_lt_n { place < n }
    requires b_bound { b < 48 }
{
    let rows = rows_of(words, n, place, b);
    let trial = Trial {
        start: start(s.state, b % 7 == 6, b / 7),
        pattern: s.random.draw(),
        lent: lent(n, n + place + b),
    };
    run_whole(&mut s.tally, &trial, between(&rows, 0, 4 * n));
}

// Each malformed row in each place of each number of rows.
pub(crate) fn run_malformed(words: &[u64; WORDS], s: &mut Sweep) {
    for n in 1..=MOST {
        for place in 0..n {
            for b in 0..BROKEN {
                run_one(s, words, n, place, b);
            }
        }
    }
}
