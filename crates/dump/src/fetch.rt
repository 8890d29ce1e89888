// The instruction at an address of the image.
#![tactic(auto, using(std::proofs::lemmas::Bool::Decides::nat_tests), unfolding(crate::specs::Checks::fetched_with, crate::specs::Checks::is_inside, crate::specs::Checks::fetched_at))]

ghost use Rattle.std.specs.Prelude.{◌≡◌, ◌+◌, ◌-◌, ◌<◌, length};
ghost use Rattle.classifier.specs.Instructions.{is16};
ghost use Rattle.dump.specs.Checks as Checks;

use crate::Reason;
use crate::firmware::Firmware;

// The 16 bits from byte k on.
fn half_at(code: &[u8], k: usize) -> u16
    requires { k + 1 < length code.now }
    ensures { result ≡ Checks.half_at code.now k }
{
    u16::from_le_bytes([code[k], code[k + 1]])
}

// The 32 bits from byte k on.
fn word_at(code: &[u8], k: usize) -> u32
    requires { k + 3 < length code.now }
    ensures { result ≡ Checks.word_at code.now k }
{
    u32::from_le_bytes([code[k], code[k + 1], code[k + 2], code[k + 3]])
}

// Whether an instruction has 16 bits, by its low half.
pub(crate) fn is_short(word: u32) -> bool
    ensures { result ≡ is16 word }
{
    bits::field32(word, 0, 2) != 3
}

// The instruction from byte k on.
fn fetch_at(code: &[u8], k: usize) -> Result<u32, Reason>
    requires { k < length code.now }
    ensures { result ≡ Checks.fetched_with code.now k (length code.now - k) }
{
    let left = code.len() - k;
    if left < 2 {
        return Err(Reason::CutOff);
    }
    let half = u32::from(half_at(code, k));
    if is_short(half) {
        Ok(half)
    } else if left < 4 {
        Err(Reason::CutOff)
    } else {
        Ok(word_at(code, k))
    }
}

impl Firmware<'_> {
    // Whether the image has a byte at pc.
    fn is_inside(&self, pc: u64) -> bool
        ensures { result ≡ Checks.is_inside (length self.now.code.now) self.now.base pc }
    {
        self.base <= pc && pc - self.base < self.code.len() as u64
    }

    // The instruction at pc.
    pub(crate) fn fetch(&self, pc: u64) -> Result<u32, Reason>
        ensures { result ≡ Checks.fetched_at self.now.code.now self.now.base pc }
    {
        if self.is_inside(pc) {
            fetch_at(self.code, (pc - self.base) as usize)
        } else {
            Err(Reason::SourceOutside)
        }
    }
}
