// What was seen of all runs.
use crate::answer_words::{ROOM, kept};
use machine::Registers;
use machine::answers::number_index;
use machine::good::is_good;
use std::io;
use sweep_support::digests::digest_answer;
use sweep_support::lines::{put_count, put_counts, put_numbered, put_word};
use test_support::{count, count_at, digest_words};
use text::Page;

// What the runs gave, how often each number was answered, how many runs ended in a bad state, how many
// words were left as they had been; how many cuts there were, how many of them with 0 from each run,
// and how many of these ended as the whole run did; and the digest of what each run gave and left.
#[derive(Clone, Copy, Default)]
pub(crate) struct Tally {
    runs: u64,
    given: [u64; 10],
    events: u64,
    numbers: [u64; 6],
    bad: u64,
    kept: u64,
    cuts: u64,
    cuts_of_0: u64,
    cuts_alike: u64,
    pub(crate) digest: u64,
}

impl Tally {
    // What a run gave.
    fn give(&mut self, number: u64, events: u64) {
        count(&mut self.runs, true);
        count_at(&mut self.given, number);
        self.events = self.events.wrapping_add(events);
        self.digest = digest_answer(self.digest, number, events);
    }

    // The number of an answer.
    fn answer(&mut self, number: u64) {
        count_at(&mut self.numbers, number_index(number));
    }

    // A run, but for the digest of the state after it. It was lent the words from `first` on.
    pub(crate) fn run(
        &mut self,
        number: u64,
        events: usize,
        r: Registers,
        answers: &[u64; ROOM],
        pattern: u64,
        first: usize,
    ) {
        self.give(number, events as u64);
        for word in answers.iter().skip(first).step_by(2).take(events) {
            self.answer(*word);
        }
        count(&mut self.bad, !is_good(r));
        self.kept = self.kept.wrapping_add(kept(answers, pattern));
        self.digest = digest_words(self.digest, answers);
    }

    // A cut: whether each run gave 0, and whether the two ended as the whole one did.
    pub(crate) fn cut(&mut self, of_0: bool, alike: bool) {
        count(&mut self.cuts, true);
        count(&mut self.cuts_of_0, of_0);
        count(&mut self.cuts_alike, of_0 && alike);
    }

    pub(crate) fn report(&self, rt: &impl Print) {
        let mut buffer = [0u8; 1024];
        let mut page = Page::new(&mut buffer);
        page.put(b"runs\n");
        put_count(&mut page, b"  runs ", self.runs);
        for number in [0, 6, 7, 9] {
            put_numbered(&mut page, b"  gave ", number as u64, self.given[number]);
        }
        put_count(&mut page, b"  events ", self.events);
        put_counts(&mut page, b"  number ", &self.numbers);
        put_count(&mut page, b"  bad ", self.bad);
        put_count(&mut page, b"  words kept ", self.kept);
        put_count(&mut page, b"  cuts ", self.cuts);
        put_count(&mut page, b"  cuts of 0 ", self.cuts_of_0);
        put_count(&mut page, b"  cuts alike ", self.cuts_alike);
        put_word(&mut page, b"  digest 0x", self.digest);
        console::write(&mut io::writer(rt), page.text());
    }
}
