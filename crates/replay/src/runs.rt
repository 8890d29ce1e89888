// A trace from its file through the recorder, in blocks.
use crate::answers::{Counts, put_answers};
use crate::output::Output;
use crate::report::{put_counts, put_dump, put_entries, put_history, put_registers};
use crate::{Options, problems};
use console::{BLOCK, Complain};
use recorder::State;
use recorder::steps::reset;
use std::fs::Files;
use std::io;
use std::io::Read;
use trace::Malformed;
use trace::rows::decode;
use trace::runs::replay_in_place;

// How many words a block has, and how many words answer its rows.
const WORDS: usize = 8192;

const ANSWERS: usize = 4096;

// A trace's run: the state, the counts of the answers, the rows run, the word that broke a rule, the bytes
// left over that are no row, and why a read failed.
#[derive(Drop)]
struct Run {
    state: State,
    counts: Counts,
    rows: u64,
    broken: Option<Malformed>,
    left: u64,
    error: Option<io::Error>,
}

// The first word of row i that breaks a rule, if there is such a row.
fn broken_word(rows: &[[u64; 4]], i: usize) -> Option<Malformed> {
    let [w, a, b, c] = *rows.get(i)?;
    decode(w, a, b, c).err()
}

impl Run {
    fn new(zc: bool) -> Run {
        Run {
            state: reset(zc),
            counts: Counts::default(),
            rows: 0,
            broken: None,
            left: 0,
            error: None,
        }
    }

    // All whole rows, up to one that is malformed, with room for their answers.
    fn run_rows<R: Print + Complain>(
        &mut self,
        out: &mut Output<'_, R>,
        words: &[u64],
        answers: &mut [u64],
        asked: bool,
    ) {
        let r = self.state.registers;
        let ran = replay_in_place(&mut self.state.entries, r, words, answers);
        self.state.registers = ran.registers;
        self.rows = self.rows.wrapping_add(ran.count as u64);
        let (rows, _) = words.as_chunks::<4>();
        self.broken = broken_word(rows, ran.count);
        let (answers, _) = answers.as_chunks::<2>();
        let n = ran.count.min(rows.len()).min(answers.len());
        self.counts.count_all(&rows[..n], &answers[..n]);
        if asked {
            put_answers(out, &answers[..n]);
        }
    }

    // All blocks of a file, up to a row that is malformed. A proved loop has to end, and nothing says that a
    // file does: the count of blocks is one that no run uses up.
    fn run_file<R: Print + Complain>(
        &mut self,
        out: &mut Output<'_, R>,
        file: &mut impl Read,
        asked: bool,
    ) {
        let mut input = [0u8; BLOCK];
        let mut words = [0; WORDS];
        let mut answers = [0; ANSWERS];
        for _ in 0..u64::MAX {
            let block = console::fill(file, &mut input);
            let count = console::put_words(&mut words, text::before(&input, block.count));
            self.run_rows(out, &words[..count / 4 * 4], &mut answers, asked);
            self.left = (block.count % 32) as u64;
            self.error = block.error;
            if self.broken.is_some() || block.error.is_some() || block.count < BLOCK {
                break;
            }
        }
    }

    // What it left behind: counts, registers, the history and, if asked for, all entries; or the entries
    // alone as a dump, which is of one trace, so that the page is long enough for it.
    fn put<R: Print + Complain>(&self, out: &mut Output<'_, R>, o: Options) {
        if o.dump {
            put_dump(&mut out.page, &self.state);
        } else {
            put_counts(out, &self.counts, self.rows);
            put_registers(out, self.state.registers);
            put_history(out, &self.state);
            if o.state {
                put_entries(out, &self.state);
            }
        }
    }

    // What ended it before its file did.
    fn tell_problem(&self, rt: &impl Complain, name: &[u8]) {
        if let Some(word) = self.broken {
            problems::malformed(rt, name, self.rows, word);
        } else if self.left != 0 && self.error.is_none() {
            problems::left_over(rt, name, self.left, self.rows);
        }
    }
}

// An open file from reset, and what it left behind.
fn replay_file<R: Print + Complain>(
    out: &mut Output<'_, R>,
    name: &[u8],
    file: &mut impl Read,
    o: Options,
) {
    let mut run = Run::new(o.zc);
    run.run_file(out, file, o.answers);
    if let Some(error) = run.error {
        problems::unreadable(out.rt, name, error);
    }
    run.put(out, o);
    out.flush();
    run.tell_problem(out.rt, name);
}

// A trace by its file's name, which is told where there are several.
pub(crate) fn replay<R: Files + Print + Complain>(
    out: &mut Output<'_, R>,
    name: &[u8],
    o: Options,
    several: bool,
) {
    match console::open(out.rt, name) {
        Ok(mut file) => {
            if several {
                out.flush();
                out.page.put(b"trace ");
                out.page.put(name);
                out.page.put_byte(b'\n');
            }
            replay_file(out, name, &mut file, o);
        }
        Err(error) => problems::unreadable(out.rt, name, error),
    }
}
