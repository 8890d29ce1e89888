// The cycle counter as an event finds it and as a record leaves it, and the count that a record holds.
ghost use Rattle.std.specs.Prelude.{◌≡◌, ◌+◌, ◌-◌, ◌*◌, ◌^◌, ◌≤◌, ◌<◌, min, ltb};
ghost use Rattle.std.specs.Prelude.{if◌then◌else◌};
ghost use Rattle.machine.specs.Good.{counter_limit};
ghost use Rattle.machine.specs.Regs.{with_cycles};
ghost use Rattle.transfers.specs.Counts.{counted, restarted, live_cycles, cycles_of, tallied, top_bit, exponent_of, mantissa_of, cc_of, decoded_of, decoded_in, stamped};

use machine::good::COUNTER_LIMIT;
use machine::regs::{no_cycles, with_cycles};
use machine::{Cycles, Entry, Registers};
use qualifying::outcomes::is_live;

// Two counts together, up to the counter's top.
fn capped_sum(x: u64, n: u32) -> u64
    ensures { result ≡ min (x + n) (counter_limit - 1) }
{
    x.saturating_add(u64::from(n)).min(COUNTER_LIMIT - 1)
}

// The counter with the cycles of an event.
fn count(c: Cycles, n: u32) -> Cycles
    ensures { result ≡ counted c n }
{
    Cycles {
        counter: capped_sum(c.counter, n),
        ..c
    }
}

// The counter after a record.
pub fn restart(rasemu: bool) -> Cycles
    ensures { result ≡ restarted rasemu }
{
    Cycles {
        counter: 0,
        ccv: !rasemu,
    }
}

// The counter as an event with n cycles finds it where recording is live.
#[tactic(auto, unfolding(crate::specs::Counts::live_cycles))]
fn live_cycles(c: Cycles, rasemu: bool, n: u32) -> Cycles
    ensures { result ≡ live_cycles c rasemu n }
{
    if rasemu { no_cycles() } else { count(c, n) }
}

// The same where it is live or not.
#[tactic(auto, unfolding(crate::specs::Counts::cycles_of))]
fn cycles_of(r: Registers, rasemu: bool, n: u32) -> Cycles
    ensures { result ≡ cycles_of r rasemu n }
{
    if is_live(r) {
        live_cycles(r.cycles, rasemu, n)
    } else {
        r.cycles
    }
}

// The registers with the counter as an event with n cycles finds it where recording is live.
pub fn tally_live(r: Registers, rasemu: bool, n: u32) -> Registers
    ensures { result ≡ with_cycles r (live_cycles r.cycles rasemu n) }
{
    with_cycles(r, live_cycles(r.cycles, rasemu, n))
}

// The same where it is live or not.
pub fn tally(r: Registers, rasemu: bool, n: u32) -> Registers
    ensures { result ≡ tallied r rasemu n }
{
    with_cycles(r, cycles_of(r, rasemu, n))
}

// The exponent of a count from 2^12 up: its top bit's index minus 11.
#[tactic(auto, using(crate::proofs::CountLaws::top_is, crate::proofs::CountLaws::top_ge))]
fn long_exponent(n: u64) -> u32
    requires { 2 ^ 12 ≤ n }
    ensures { result ≡ top_bit n - 11 }
{
    n.ilog2() - 11
}

// Such a count, coded.
#[tactic(auto, using(crate::proofs::CountLaws::long_cc, crate::proofs::CountLaws::top_ge))]
fn long_cc(n: u64) -> u64
    requires { 2 ^ 12 ≤ n }
    ensures { result ≡ cc_of n }
{
    let e = long_exponent(n);
    u64::from(e) * 0x1000 + bits::field64(n, e - 1, 12)
}

// A count, coded: the exponent above the twelve bits of the mantissa.
#[tactic(auto, using(crate::proofs::CountLaws::short_cc))]
fn cc(n: u64) -> u64
    ensures { result ≡ cc_of n }
{
    if n < 0x1000 { n } else { long_cc(n) }
}

fn ccv_bit(ccv: bool) -> u64
    ensures { result ≡ (if ccv then 2 ^ 15 else 0) }
{
    if ccv { 0x8000 } else { 0 }
}

// A record with the counter beside its type.
#[tactic(auto, using(crate::proofs::CountLaws::bounds), unfolding(crate::specs::Counts::stamped))]
pub fn stamp(e: Entry, c: Cycles) -> Entry
    ensures { result ≡ stamped e c }
{
    Entry {
        ctrdata: bits::low(e.ctrdata, 4) + ccv_bit(c.ccv) + cc(c.counter) * 0x1_0000,
        ..e
    }
}

// The count that an exponent and a mantissa stand for.
#[tactic(auto, unfolding(crate::specs::Counts::decoded_of))]
fn decoded_by(cce: u64, ccm: u64) -> u64
    requires exponent { cce < 16 }
    requires mantissa { ccm < 2 ^ 12 }
    ensures { result ≡ decoded_of cce ccm }
{
    if cce == 0 {
        ccm
    } else {
        (0x1000 + ccm) << (cce - 1)
    }
}

// The count in ctrdata.
#[tactic(auto, unfolding(crate::specs::Counts::decoded_in))]
pub fn decoded(ctrdata: u64) -> u64
    ensures { result ≡ decoded_in ctrdata }
{
    decoded_by(
        bits::field64(ctrdata, 28, 4),
        bits::field64(ctrdata, 16, 12),
    )
}
