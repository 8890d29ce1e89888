// One event of each kind in place: the entries are lent, and the registers go in and come back.
ghost use Rattle.std.specs.Prelude.{◌≡◌, true, false, ◌<◌};
ghost use Rattle.machine.specs.Answers.{refused};
ghost use Rattle.machine.specs.Good.{good_of};
ghost use Rattle.machine.specs.declared.Decision.{Decision};
ghost use Rattle.machine.specs.declared.Event.TheVariants.{Retired, Trap, TrapReturn, Access, Sctrclr, Host};
ghost use Rattle.machine.specs.declared.Refusal.TheVariants.{BadState};
ghost use Rattle.qualifying.specs.Outcomes.{live_of};
ghost use Rattle.recorder.specs.Entries.{entry_at};
ghost use Rattle.recorder.specs.Events.{type_in};
ghost use Rattle.recorder.specs.Steps.{state_of, stepped, applied_to, outcome_to, answered_by, step_with, step_of};

use crate::indexes::{access_index, outcome_index, wrptr_index};
use crate::{Answered, Entries};
use access::accesses;
use machine::answers::{accept, refuse};
use machine::good::is_good;
use machine::{
    CsrAccess, Decision, Enables, Entry, Outcome, Refusal, Registers, RetiredWord, ReturnTo, TrapTo,
};
use qualifying::outcomes::{is_live, live_outcome, rasemu};
use transfers::counts::tally_live;
use transfers::decisions;
use transfers::records::entry_for;

// What a decision answers.
fn answered(d: Decision) -> Answered
    ensures { result ≡ answered_by d }
{
    Answered {
        number: d.number,
        value: d.value,
        registers: d.registers,
    }
}

// Registers that are not free of number 5 refuse every event.
fn refuse_bad(r: Registers) -> Answered
    ensures { result ≡ answered_by (refused r BadState) }
{
    answered(refuse(r, Refusal::BadState))
}

// A decision done: its effect on physical entry i.
#[tactic(auto, unfolding(crate::specs::Steps::applied_to))]
fn apply(entries: &mut Entries, d: Decision, i: usize) -> Answered
    requires { i < 256 }
    ensures { stepped result entries.new ≡ applied_to entries.old d i }
{
    entries.apply(d.effect, i);
    answered(d)
}

// What is decided of physical entry i, done on it.
fn decided<F: FnOnce(Entry) -> Decision>(entries: &mut Entries, i: usize, decide: F) -> Answered
    requires within { i < 256 }
    requires callable { F.IsAlwaysCallable decide }
    ensures { (d : Decision) × F.post decide (entry_at entries.old i) d × (stepped result entries.new ≡ applied_to entries.old d i) }
{
    let d = decide(entries.at(i));
    apply(entries, d, i)
}

// The type of a retired word.
#[tactic(auto, unfolding(crate::specs::Events::type_in))]
fn word_type(r: Registers, w: RetiredWord) -> u64
    ensures { result ≡ type_in r w }
{
    let i = classifier::classify(w.word, r.constants.zc);
    u64::from(classifier::type_number(i.transfer, w.taken))
}

// An outcome, from registers with the counter as the event finds it, with the record e that it would put.
#[tactic(auto, unfolding(crate::specs::Steps::outcome_to))]
fn perform(entries: &mut Entries, r: Registers, e: Entry, rasemu: bool, o: Outcome) -> Answered
    ensures { stepped result entries.new ≡ outcome_to entries.old r e rasemu o }
{
    let i = outcome_index(r, o);
    decided(entries, i, |old| decisions::done(r, old, e, rasemu, o))
}

// A word retired where recording is live, from registers free of number 5: it is sorted only then.
fn retire_live(entries: &mut Entries, r: Registers, w: RetiredWord) -> Answered
    requires { live_of r ≡ true }
    ensures { step_with true (state_of r entries.old) (Retired w) ≡ stepped result entries.new }
{
    let n = word_type(r, w);
    let o = live_outcome(r, n);
    let ra = rasemu(r, r.mode, r.mode);
    let q = tally_live(r, ra, w.cycles);
    let e = entry_for(w.pc, w.target, w.mispredicted, n);
    perform(entries, q, e, ra, o)
}

#[tactic(auto, using(crate::proofs::Laws::dead_step))]
fn retire_good(entries: &mut Entries, r: Registers, w: RetiredWord) -> Answered
    ensures { step_with true (state_of r entries.old) (Retired w) ≡ stepped result entries.new }
{
    if is_live(r) {
        retire_live(entries, r, w)
    } else {
        answered(accept(r, 0))
    }
}

// A retired word, for a caller that has looked for number 5: whether the registers are free of it is given.
#[tactic(auto, unfolding(crate::specs::Steps::step_with, crate::specs::Steps::applied_to, crate::specs::Entries::applied_of))]
pub fn retire_with(entries: &mut Entries, r: Registers, w: RetiredWord, good: bool) -> Answered
    ensures { step_with good (state_of r entries.old) (Retired w) ≡ stepped result entries.new }
{
    if good {
        retire_good(entries, r, w)
    } else {
        refuse_bad(r)
    }
}

// A retired word.
#[tactic(auto, unfolding(crate::specs::Steps::step_with, crate::specs::Steps::step_of, crate::specs::Steps::decided_of, crate::specs::Decisions::decide_of))]
pub fn retire(entries: &mut Entries, r: Registers, w: RetiredWord) -> Answered
    ensures { step_of (state_of r entries.old) (Retired w) ≡ stepped result entries.new }
{
    retire_with(entries, r, w, is_good(r))
}

// A trap.
pub fn trap(entries: &mut Entries, r: Registers, x: TrapTo) -> Answered
    ensures { step_of (state_of r entries.old) (Trap x) ≡ stepped result entries.new }
{
    if !is_good(r) {
        return refuse_bad(r);
    }
    let i = wrptr_index(r);
    decided(entries, i, |old| decisions::trap(r, old, x))
}

// A trap return.
pub fn trap_return(entries: &mut Entries, r: Registers, x: ReturnTo) -> Answered
    ensures { step_of (state_of r entries.old) (TrapReturn x) ≡ stepped result entries.new }
{
    if !is_good(r) {
        return refuse_bad(r);
    }
    let i = wrptr_index(r);
    decided(entries, i, |old| decisions::trap_return(r, old, x))
}

// A register access.
pub fn access(entries: &mut Entries, r: Registers, a: CsrAccess) -> Answered
    ensures { step_of (state_of r entries.old) (Access a) ≡ stepped result entries.new }
{
    if !is_good(r) {
        return refuse_bad(r);
    }
    let i = access_index(r, a.number);
    decided(entries, i, |old| accesses::access(r, old, a))
}

// The SCTRCLR instruction.
pub fn sctrclr(entries: &mut Entries, r: Registers) -> Answered
    ensures { step_of (state_of r entries.old) Sctrclr ≡ stepped result entries.new }
{
    if !is_good(r) {
        return refuse_bad(r);
    }
    let i = wrptr_index(r);
    decided(entries, i, |_| accesses::sctrclr(r))
}

// The host sets the two state-enable bits.
pub fn host(entries: &mut Entries, r: Registers, h: Enables) -> Answered
    ensures { step_of (state_of r entries.old) (Host h) ≡ stepped result entries.new }
{
    if !is_good(r) {
        return refuse_bad(r);
    }
    let i = wrptr_index(r);
    decided(entries, i, |_| accesses::host(r, h))
}
