// The digest h with an answer, an entry or registers taken in.
ghost use Rattle.std.specs.Prelude.{◌≡◌};
ghost use Rattle.sweep_support.specs.Digests.{with_answer, with_entry, with_controls, with_buffer, with_selects, with_enables, with_cycles, with_constants, with_registers};

use machine::{Buffer, Constants, ControlWords, Cycles, Enables, Entry, Registers, Selects};
use test_support::digest;
use trace::codes::{flag, mode_code};

#[tactic(auto, unfolding(crate::specs::Digests::with_answer))]
pub fn digest_answer(h: u64, number: u64, value: u64) -> u64
    ensures { result ≡ with_answer h number value }
{
    digest(digest(h, number), value)
}

#[tactic(auto, unfolding(crate::specs::Digests::with_entry))]
pub fn digest_entry(h: u64, e: Entry) -> u64
    ensures { result ≡ with_entry h e }
{
    digest(digest(digest(h, e.ctrsource), e.ctrtarget), e.ctrdata)
}

#[tactic(auto, unfolding(crate::specs::Digests::with_controls))]
fn digest_controls(h: u64, c: ControlWords) -> u64
    ensures { result ≡ with_controls h c }
{
    digest(digest(h, c.mctrctl), c.vsctrctl)
}

#[tactic(auto, unfolding(crate::specs::Digests::with_buffer))]
fn digest_buffer(h: u64, b: Buffer) -> u64
    ensures { result ≡ with_buffer h b }
{
    digest(digest(digest(h, b.code), b.wrptr), flag(b.frozen))
}

#[tactic(auto, unfolding(crate::specs::Digests::with_selects))]
fn digest_selects(h: u64, s: Selects) -> u64
    ensures { result ≡ with_selects h s }
{
    digest(digest(h, s.siselect), s.vsiselect)
}

#[tactic(auto, unfolding(crate::specs::Digests::with_enables))]
fn digest_enables(h: u64, e: Enables) -> u64
    ensures { result ≡ with_enables h e }
{
    digest(digest(h, flag(e.mstateen0)), flag(e.hstateen0))
}

#[tactic(auto, unfolding(crate::specs::Digests::with_cycles))]
fn digest_cycles(h: u64, c: Cycles) -> u64
    ensures { result ≡ with_cycles h c }
{
    digest(digest(h, c.counter), flag(c.ccv))
}

#[tactic(auto, unfolding(crate::specs::Digests::with_constants))]
fn digest_constants(h: u64, c: Constants) -> u64
    ensures { result ≡ with_constants h c }
{
    digest(h, flag(c.zc))
}

#[tactic(auto, unfolding(crate::specs::Digests::with_registers))]
pub fn digest_registers(h: u64, r: Registers) -> u64
    ensures { result ≡ with_registers h r }
{
    let mut d = digest(h, mode_code(r.mode));
    d = digest_controls(d, r.controls);
    d = digest_buffer(d, r.buffer);
    d = digest_selects(d, r.selects);
    d = digest_enables(d, r.enables);
    d = digest_cycles(d, r.cycles);
    digest_constants(d, r.constants)
}
