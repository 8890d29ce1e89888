// Pairs of lists that differ only where modes are off: in words retired there, which are struck, in
// addresses on their side, and in the cycles of traps and returns from them. The answers left and the
// end states have to be equal. Run A is in place, run B by value.
use crate::draw_events::{address, cycles, draw_event, draw_word};
use crate::draw_states::{draw_entries, draw_registers};
use crate::events::{Others, addresses_of, cycles_of, is_mispredicted, is_off, with_others};
use machine::good::is_good;
use machine::{Event, Registers};
use recorder::State;
use recorder::steps::{step, step_in_place};
use std::io;
use sweep_support::digests::digest_answer;
use sweep_support::lines::{put_count, put_word};
use sweep_support::states::{digest_state, digest_value};
use test_support::{Random, count};
use text::Page;

// What was seen.
#[derive(Default, Drop)]
struct Tally {
    bad_starts: u64,
    switched_on: u64,
    unequal_lengths: u64,
    empty_lists: u64,
    struck_to_nothing: u64,
    words_struck: u64,
    addresses_differed: u64,
    cycles_differed: u64,
    flags_differed: u64,
    events_left: u64,
    answers_unequal: u64,
    end_states_unequal: u64,
    answers: u64,
    end_states: u64,
}

// A pair under way: A and B, how many words each retired alone, how many events both have, and how many
// of those are left.
#[derive(Drop)]
struct Pair {
    a: State,
    b: State,
    alone_in_a: u64,
    alone_in_b: u64,
    turns: u64,
    left: u64,
}

#[derive(Clone, Copy, PartialEq, Eq)]
struct Answer {
    number: u64,
    value: u64,
}

const PAIRS: u64 = 4000;

// How many events a pair has in common, so that lists may be empty or be struck to nothing.
fn turns_of(n: u64) -> u64 {
    match n % 8 {
        0 => 0,
        1 => 1,
        _ => 16,
    }
}

// How many words a run retires alone: only words in a mode that is off are struck.
fn words_alone(r: Registers, n: u64) -> u64 {
    if is_off(r) { n % 4 } else { 0 }
}

// A step of A.
fn step_a(s: &mut State, e: Event) -> Answer {
    let a = step_in_place(&mut s.entries, s.registers, e);
    s.registers = a.registers;
    Answer {
        number: a.number,
        value: a.value,
    }
}

// A step of B.
fn step_b(s: &mut State, e: Event) -> Answer {
    let b = step(*s, e);
    *s = b.state;
    Answer {
        number: b.number,
        value: b.value,
    }
}

// Words that a run retires alone.
fn retire<F: Fn(&mut State, Event) -> Answer>(
    s: &mut State,
    words: u64,
    random: &mut Random,
    step: F,
)
    requires { F.IsAlwaysCallable step }
{
    for _ in 0..words {
        step(s, draw_word(random));
    }
}

impl Pair {
    // What each run retires alone, A first.
    fn run_alone(&mut self, random: &mut Random) {
        let n = random.draw();
        let in_a = words_alone(self.a.registers, n);
        let in_b = words_alone(self.b.registers, n / 4);
        retire(&mut self.a, in_a, random, step_a);
        retire(&mut self.b, in_b, random, step_b);
        self.alone_in_a = self.alone_in_a.wrapping_add(in_a);
        self.alone_in_b = self.alone_in_b.wrapping_add(in_b);
    }

    // One event for both runs.
    fn run_shared(&mut self, t: &mut Tally, random: &mut Random) {
        let r = self.a.registers;
        let q = self.b.registers;
        let e = draw_event(random, r.mode);
        let source = address(random.draw());
        let target = address(random.draw());
        let n = random.draw();
        let others = Others {
            source,
            target,
            cycles: cycles(n),
            mispredicted: n / 0x10_0000_0000 % 2 == 1,
        };
        let other = with_others(e, r, q, others);
        let a = step_a(&mut self.a, e);
        let b = step_b(&mut self.b, other);
        t.add_differences(e, other);
        let word = matches!(e, Event::Retired(_));
        let struck_in_a = word && is_off(r);
        let struck_in_b = word && is_off(q);
        count(&mut t.words_struck, struck_in_a);
        count(&mut t.words_struck, struck_in_b);
        if !struck_in_a && !struck_in_b {
            count(&mut self.left, true);
            t.add_left(a, b);
        }
        // An event that is left in one run only makes the answers left unequal.
        count(&mut t.answers_unequal, struck_in_a != struck_in_b);
    }

    // The events that both runs have, and what each retires alone before each of them and at the end.
    fn run(&mut self, t: &mut Tally, random: &mut Random) {
        for _ in 0..self.turns {
            self.run_alone(random);
            self.run_shared(t, random);
        }
        self.run_alone(random);
    }
}

impl Tally {
    // How the events that the two runs get differ.
    fn add_differences(&mut self, e: Event, other: Event) {
        if let (Some(x), Some(y)) = (addresses_of(e), addresses_of(other)) {
            count(&mut self.addresses_differed, x.source != y.source);
            count(&mut self.addresses_differed, x.target != y.target);
        }
        count(&mut self.cycles_differed, cycles_of(e) != cycles_of(other));
        count(
            &mut self.flags_differed,
            is_mispredicted(e) != is_mispredicted(other),
        );
    }

    // An event that is left in both runs, with its answers.
    fn add_left(&mut self, a: Answer, b: Answer) {
        count(&mut self.events_left, true);
        count(&mut self.answers_unequal, a != b);
        self.answers = digest_answer(self.answers, a.number, a.value);
    }

    fn add_start(&mut self, r: Registers) {
        count(&mut self.bad_starts, !is_good(r));
        count(&mut self.switched_on, r.constants.zc);
    }

    // A list of a pair, by how many words it has alone.
    fn add_list(&mut self, p: &Pair, alone: u64) {
        let empty = alone == 0 && p.turns == 0;
        count(&mut self.empty_lists, empty);
        count(&mut self.struck_to_nothing, !empty && p.left == 0);
        self.words_struck = self.words_struck.wrapping_add(alone);
    }

    fn add_end(&mut self, p: &Pair) {
        self.add_list(p, p.alone_in_a);
        self.add_list(p, p.alone_in_b);
        count(&mut self.unequal_lengths, p.alone_in_a != p.alone_in_b);
        let a = digest_state(self.end_states, p.a.registers, &p.a.entries);
        let b = digest_value(self.end_states, p.b);
        count(&mut self.end_states_unequal, a != b);
        self.end_states = a;
    }

    fn run_pair(&mut self, random: &mut Random) {
        let start = State {
            registers: draw_registers(random),
            entries: draw_entries(random),
        };
        self.add_start(start.registers);
        let mut p = Pair {
            a: start,
            b: start,
            alone_in_a: 0,
            alone_in_b: 0,
            turns: turns_of(random.draw()),
            left: 0,
        };
        p.run(self, random);
        self.add_end(&p);
    }

    fn put(&self, page: &mut Page) {
        page.put(b"pairs\n");
        put_count(page, b"  pairs ", PAIRS);
        put_count(page, b"  bad starts ", self.bad_starts);
        put_count(page, b"  switched on ", self.switched_on);
        put_count(page, b"  unequal lengths ", self.unequal_lengths);
        put_count(page, b"  empty lists ", self.empty_lists);
        put_count(page, b"  struck to nothing ", self.struck_to_nothing);
        put_count(page, b"  words struck ", self.words_struck);
        put_count(page, b"  addresses differed ", self.addresses_differed);
        put_count(page, b"  cycles differed ", self.cycles_differed);
        put_count(page, b"  flags differed ", self.flags_differed);
        put_count(page, b"  events left ", self.events_left);
        put_count(page, b"  answers unequal ", self.answers_unequal);
        put_count(page, b"  end states unequal ", self.end_states_unequal);
        put_word(page, b"  answers 0x", self.answers);
        put_word(page, b"  end states 0x", self.end_states);
    }
}

pub(crate) fn report(rt: &impl Print) {
    let mut t = Tally::default();
    let mut random = Random::new();
    for _ in 0..PAIRS {
        t.run_pair(&mut random);
    }
    let mut out = [0u8; 1024];
    let mut page = Page::new(&mut out);
    t.put(&mut page);
    console::write(&mut io::writer(rt), page.text());
}
