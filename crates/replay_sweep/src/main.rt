// Replays slices of the rows on standard input, from good states and bad ones, with enough words for
// answers or too few: each whole and by value, and one of three also in place, cut in two before and
// after each row. Then replays rows of which one is malformed. Prints counts of what the runs gave, and
// a digest of all that they gave and left. The gate compares it with what the model prints.
#![tactic(auto)]

mod answer_words;
mod cuts;
mod input;
mod malformed;
mod slices;
mod starts;
mod tally;
mod whole;

use input::WORDS;
use slices::run_slices;

fn main(rt: HostRuntime) {
    let mut words = [0u64; WORDS];
    input::read_words(&rt, &mut words);
    let mut s = run_slices(&words);
    malformed::run_malformed(&words, &mut s);
    s.tally.report(&rt);
}
