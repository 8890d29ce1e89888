// Whole runs, by value.
use crate::answer_words::{ROOM, fill};
use crate::tally::Tally;
use recorder::State;
use sweep_support::states::digest_value;
use test_support::digest_words;
use trace::runs::replay;

// What a run is lent and starts from: a state, the pattern of the answer words, and how many of them.
#[derive(Clone, Copy)]
pub(crate) struct Trial {
    pub(crate) start: State,
    pub(crate) pattern: u64,
    pub(crate) lent: usize,
}

// How a run ended: what it gave, and digests of the state and of the answer words.
#[derive(Clone, Copy, PartialEq, Eq)]
pub(crate) struct End {
    pub(crate) number: u64,
    pub(crate) count: usize,
    pub(crate) state: u64,
    pub(crate) answers: u64,
}

// A whole run: the state after it, and how it ended.
#[derive(Clone, Copy)]
pub(crate) struct Whole {
    pub(crate) state: State,
    pub(crate) end: End,
}

pub(crate) fn run_whole(tally: &mut Tally, trial: &Trial, rows: &[u64]) -> Whole {
    let mut answers = [0; ROOM];
    fill(&mut answers, trial.pattern);
    let lent = trial.lent.min(ROOM);
    let q = replay(trial.start, rows, &mut answers[..lent]);
    let state = q.state;
    tally.run(
        q.number,
        q.count,
        state.registers,
        &answers,
        trial.pattern,
        0,
    );
    tally.digest = digest_value(tally.digest, state);
    let end = End {
        number: q.number,
        count: q.count,
        state: digest_value(0, state),
        answers: digest_words(0, &answers),
    };
    Whole { state, end }
}
