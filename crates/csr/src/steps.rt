// The access steps.
ghost use Rattle.std.specs.Prelude.{◌≡◌, false, not};
ghost use Rattle.csr.specs.Numbers.{view_in};
ghost use Rattle.csr.specs.Steps.{select_of, selection_of, in_window, is_machine, is_guest, facts, facts_of, sctrclr_facts, step2, step3, step5, first_step, refusal_of};

use crate::numbers::view_in;
use crate::{Csr, Facts, View};
use machine::{Mode, Refusal, Registers, Selects, Verdict};

// The select register of a view.
pub fn select(s: Selects, v: View) -> u64
    ensures { result ≡ select_of s v }
{
    match v {
        View::Machine => 0,
        View::Supervisor => s.siselect,
        View::Guest => s.vsiselect,
    }
}

// The selection of an ireg, or 0.
pub fn selection(s: Selects, g: Csr) -> u64
    ensures { result ≡ selection_of s g }
{
    match g {
        Csr::Ireg(v, _) => select(s, v),
        _ => 0,
    }
}

// Whether a selection reaches entries.
#[tactic(auto, unfolding(crate::specs::Steps::in_window))]
fn in_window(s: u64) -> bool
    ensures { result ≡ in_window s }
{
    bits::is_from_to(0x200, 0x2FF, s)
}

// Of a control register; all but mctrctl are gated.
fn control_facts(v: View) -> Facts
    ensures { result ≡ facts false (is_machine v) (is_guest v) (not (is_machine v)) false }
{
    Facts {
        gated: v != View::Machine,
        ..select_facts(v)
    }
}

// Of a select register; none is gated.
fn select_facts(v: View) -> Facts
    ensures { result ≡ facts false (is_machine v) (is_guest v) false false }
{
    Facts {
        machine: v == View::Machine,
        barred: v == View::Guest,
        ..Facts::default()
    }
}

fn ireg_facts(v: View, selection: u64) -> Facts
    ensures { result ≡ facts false (is_machine v) (is_guest v) (in_window selection) (not (in_window selection)) }
{
    let gated = in_window(selection);
    Facts {
        gated,
        outside: !gated,
        ..select_facts(v)
    }
}

// The selection that an ireg of a view means in the current mode.
fn selection_in(r: Registers, v: View) -> u64
    ensures { result ≡ select_of r.selects (view_in r.mode v) }
{
    select(r.selects, view_in(r.mode, v))
}

// What the steps ask of a register.
#[tactic(auto, unfolding(crate::specs::Steps::facts_of))]
pub fn facts_of(r: Registers, g: Csr) -> Facts
    ensures { result ≡ facts_of r g }
{
    match g {
        Csr::Control(v) => control_facts(v),
        Csr::Select(v) => select_facts(v),
        Csr::Ireg(v, _) => ireg_facts(v, selection_in(r, v)),
        Csr::Depth => Facts {
            barred: true,
            gated: true,
            ..Facts::default()
        },
        Csr::Status => Facts {
            gated: true,
            ..Facts::default()
        },
        Csr::Unlisted => Facts {
            unlisted: true,
            ..Facts::default()
        },
    }
}

// What the steps ask of SCTRCLR.
pub fn sctrclr_facts() -> Facts
    ensures { result ≡ sctrclr_facts }
{
    Facts {
        gated: true, // SCTRCLR is of step 3's list
        ..Facts::default()
    }
}

#[tactic(auto, unfolding(crate::specs::Steps::step2))]
fn by_step2(r: Registers, f: Facts) -> bool
    ensures { result ≡ step2 r f }
{
    r.mode == Mode::U || f.machine && r.mode != Mode::M
}

#[tactic(auto, unfolding(crate::specs::Steps::step3))]
fn by_step3(r: Registers, f: Facts) -> bool
    ensures { result ≡ step3 r f }
{
    r.mode != Mode::M && !r.enables.mstateen0 && f.gated
}

#[tactic(auto, unfolding(crate::specs::Steps::step5))]
fn by_step5(r: Registers, f: Facts) -> bool
    ensures { result ≡ step5 r f }
{
    r.mode == Mode::VS && (f.barred || !r.enables.hstateen0 && f.gated)
}

// What the first step that applies says.
#[tactic(auto, unfolding(crate::specs::Steps::first_step))]
fn first_step(one: bool, two: bool, three: bool, four: bool, five: bool, six: bool) -> Verdict
    ensures { result ≡ first_step one two three four five six }
{
    if one {
        Err(Refusal::NoSuchRegister)
    } else if two || three {
        Err(Refusal::IllegalInstruction)
    } else if four || five {
        Err(Refusal::VirtualInstruction)
    } else if six {
        Err(Refusal::NoSuchRegister)
    } else {
        Ok(())
    }
}

// What the access steps say: the first that applies. Number 5 is the caller's to look for.
#[tactic(auto, unfolding(crate::specs::Steps::refusal_of))]
pub fn refusal(r: Registers, f: Facts) -> Verdict
    ensures { result ≡ refusal_of r f }
{
    first_step(
        f.unlisted,
        by_step2(r, f),
        by_step3(r, f),
        r.mode == Mode::VU,
        by_step5(r, f),
        f.outside,
    )
}
