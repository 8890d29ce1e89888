// Runs cut in two, in place: the rows before a place, then those after it from the state that is left.
ghost use Rattle.std.specs.Prelude.{◌≤◌};

use crate::answer_words::{ROOM, fill};
use crate::input::between;
use crate::tally::Tally;
use crate::whole::{End, Trial};
use machine::Registers;
use recorder::Entries;
use sweep_support::states::digest_state;
use test_support::digest_words;
use trace::Ran;
use trace::runs::replay_in_place;

// What the two runs go on: the registers, the entries and the words for answers.
#[derive(Clone, Copy)]
struct Place {
    registers: Registers,
    entries: Entries,
    answers: [u64; ROOM],
}

impl Place {
    fn new(trial: &Trial) -> Place {
        let mut answers = [0; ROOM];
        fill(&mut answers, trial.pattern);
        Place {
            registers: trial.start.registers,
            entries: trial.start.entries,
            answers,
        }
    }

    // A run of some rows, which is lent the answer words from one place to another.
    fn run(
        &mut self,
        tally: &mut Tally,
        pattern: u64,
        rows: &[u64],
        first: usize,
        end: usize,
    ) -> Ran {
        let e = end.min(ROOM);
        let lent = &mut self.answers[first.min(e)..e];
        let q = replay_in_place(&mut self.entries, self.registers, rows, lent);
        self.registers = q.registers;
        tally.run(
            q.number,
            q.count,
            q.registers,
            &self.answers,
            pattern,
            first,
        );
        tally.digest = digest_state(tally.digest, q.registers, &self.entries);
        q
    }

    // How two runs ended, taken together; of number 0.
    fn end(&self, a: Ran, b: Ran) -> End {
        End {
            number: 0,
            count: a.count.wrapping_add(b.count),
            state: digest_state(0, self.registers, &self.entries),
            answers: digest_words(0, &self.answers),
        }
    }
}

// A cut before row `place`. If words are too few, the first run gets what there is of its share.
fn run_cut(tally: &mut Tally, trial: &Trial, whole: End, rows: &[u64], place: usize)
    requires { place ≤ 40 }
{
    let share = trial.lent.min(2 * place);
    let word = 4 * place;
    let pattern = trial.pattern;
    let mut p = Place::new(trial);
    let a = p.run(tally, pattern, between(rows, 0, word), 0, share);
    let b = p.run(
        tally,
        pattern,
        between(rows, word, rows.len()),
        share,
        trial.lent,
    );
    let of_0 = whole.number == 0 && a.number == 0 && b.number == 0;
    tally.cut(of_0, p.end(a, b) == whole);
}

// Cuts before each of the n rows, and after the last.
pub(crate) fn run_cuts(tally: &mut Tally, trial: &Trial, whole: End, rows: &[u64], n: usize)
    requires { n ≤ 40 }
{
    for place in 0..=n {
        run_cut(tally, trial, whole, rows, place);
    }
}
