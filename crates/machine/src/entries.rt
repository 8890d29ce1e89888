// The defined bits of an entry.
ghost use Rattle.std.specs.Prelude.{◌≡◌};
ghost use Rattle.machine.specs.Entries.{defined_of};

// CC in bits 31..16 of ctrdata, CCV in bit 15, TYPE in bits 3..0.
const CTRDATA_MASK: u64 = 0xFFFF_800F;

// The defined bits of word k of an entry.
#[tactic(auto, unfolding(crate::specs::Entries::defined_of))]
pub fn defined(k: u64, x: u64) -> u64
    ensures { result ≡ defined_of k x }
{
    match k {
        0 | 1 => x,
        2 => bits::masked(x, CTRDATA_MASK),
        _ => 0,
    }
}
