// Long lists of random events, each from a random state.
use crate::counts::Counts;
use crate::depths::Depths;
use crate::draw_events::draw_event;
use crate::draw_states::{draw_entries, draw_registers, set_list_bits};
use crate::edges::Edges;
use crate::mispredictions::{Before, Mispredictions};
use crate::steps::Step;
use crate::switch::Switched;
use machine::Registers;
use machine::answers::{number_index, value_index};
use machine::good::is_good;
use recorder::steps::step_in_place;
use recorder::{ENTRIES, Entries};
use std::io;
use sweep_support::digests::digest_answer;
use sweep_support::lines::{put_count, put_counts, put_word};
use sweep_support::states::digest_state;
use test_support::{Random, count, count_at};
use text::Page;

// What was seen.
#[derive(Default, Drop)]
struct Tally {
    bad_starts: u64,
    events: u64,
    frozen: u64,
    numbers: [u64; 6],
    values: [u64; 5],
    edges: Edges,
    depths: Depths,
    counts: Counts,
    mispredictions: Mispredictions,
    switched: Switched,
    answers: u64,
    states: u64,
}

// A list under way: whether it started good, the largest depth code so far, and the machine.
#[derive(Drop)]
struct List {
    good: bool,
    deepest: u64,
    registers: Registers,
    entries: Entries,
}

const LISTS: u64 = 1000;

// From a bad state every event has the same answer, so fewer are run.
fn events_from(good: bool) -> u64 {
    if good { 400 } else { 40 }
}

impl Tally {
    fn add_answer(&mut self, s: &Step) {
        count(&mut self.events, true);
        count_at(&mut self.numbers, number_index(s.number));
        if s.outcome.is_some() {
            count_at(&mut self.values, value_index(s.value));
        }
        count(&mut self.frozen, s.before.buffer.frozen);
        self.answers = digest_answer(self.answers, s.number, s.value);
    }

    // A step of a list that started good, with the entries before it.
    fn add_good(&mut self, s: &Step, l: &List, old: Before) {
        self.depths.add_step(s, &l.entries, l.deepest);
        if s.number == 0 {
            let at = s.before.buffer.wrptr as usize % ENTRIES;
            self.counts.add_step(s, l.entries.ctrdata[at]);
            self.mispredictions.add_step(s, old);
            self.switched.add_step(s);
        }
    }

    // One event, on entries that stay in place.
    fn run_event(&mut self, l: &mut List, random: &mut Random) {
        let before = l.registers;
        let e = draw_event(random, before.mode);
        let old = Before::read(&l.entries, before.buffer);
        let a = step_in_place(&mut l.entries, before, e);
        let s = Step::new(e, before, a);
        l.registers = s.after;
        l.deepest = l.deepest.max(before.buffer.code);
        self.add_answer(&s);
        self.edges.add_step(&s);
        if l.good {
            self.add_good(&s, l, old);
        }
        self.states = digest_state(self.states, s.after, &l.entries);
    }

    fn run_list(&mut self, list: u64, random: &mut Random) {
        let mut registers = draw_registers(random);
        set_list_bits(&mut registers.controls, list);
        let good = is_good(registers);
        let mut l = List {
            good,
            deepest: 0,
            registers,
            entries: draw_entries(random),
        };
        count(&mut self.bad_starts, !good);
        for _ in 0..events_from(good) {
            self.run_event(&mut l, random);
        }
    }

    // How often each number was answered, and each value; and what was met.
    fn put(&self, page: &mut Page) {
        page.put(b"random run\n");
        put_count(page, b"  lists ", LISTS);
        put_count(page, b"  bad starts ", self.bad_starts);
        put_count(page, b"  events ", self.events);
        put_count(page, b"  frozen ", self.frozen);
        put_counts(page, b"  number ", &self.numbers);
        put_counts(page, b"  value ", &self.values);
        self.edges.put(page);
        self.depths.put(page);
        self.counts.put(page);
        self.mispredictions.put(page);
        self.switched.put(page);
        put_word(page, b"  answers 0x", self.answers);
        put_word(page, b"  states 0x", self.states);
    }
}

pub(crate) fn report(rt: &impl Print) {
    let mut t = Tally::default();
    let mut random = Random::new();
    for list in 0..LISTS {
        t.run_list(list, &mut random);
    }
    let mut out = [0u8; 4096];
    let mut page = Page::new(&mut out);
    t.put(&mut page);
    console::write(&mut io::writer(rt), page.text());
}
