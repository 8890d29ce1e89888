// An entry beside the word at its source.
#![tactic(auto, unfolding(crate::specs::Checks::may_go, crate::specs::Checks::is_like, crate::specs::Checks::word_verdict))]

ghost use Rattle.std.specs.Prelude.{◌≡◌, ◌==◌};
ghost use Rattle.classifier.specs.Instructions.{JAL, C·J};
ghost use Rattle.dump.specs.Checks as Checks;

use crate::Reason;
use crate::offsets::{branch_offset, c_j_offset, jal_offset};

// A valid entry: where it goes from and to, and the number of its type.
#[derive(Clone, Copy)]
pub(crate) struct Entry {
    pub(crate) pc: u64,
    pub(crate) target: u64,
    pub(crate) type_number: u64,
}

fn is_jal(word: u32) -> bool
    ensures { result ≡ JAL word }
{
    bits::field32(word, 0, 7) == 0b110_1111
}

fn is_c_j(word: u32) -> bool
    ensures { result ≡ C·J word }
{
    bits::field32(word, 0, 2) == 0b01 && bits::field32(word, 13, 3) == 0b101
}

impl Entry {
    // Whether an offset takes it to its target.
    fn lands(self, offset: u64) -> bool
        ensures { result ≡ ((Checks.moved self.pc offset) == self.target) }
    {
        self.pc.wrapping_add(offset) == self.target
    }

    // Whether it is a transfer that the word can make.
    fn may_go(self, word: u32) -> bool
        ensures { result ≡ Checks.may_go self.pc word self.type_number self.target }
    {
        if self.type_number == 4 {
            self.lands(u64::from(classifier::length(word)))
        } else if self.type_number == 5 {
            self.lands(branch_offset(word))
        } else if is_jal(word) {
            self.lands(jal_offset(word))
        } else if is_c_j(word) {
            self.lands(c_j_offset(word))
        } else {
            true
        }
    }

    // Whether its type is the word's. A branch fits 4 and 5.
    fn is_like(self, word: u32, zc: bool) -> bool
        ensures { result ≡ Checks.is_like zc word self.type_number }
    {
        let instruction = classifier::classify(word, zc);
        u64::from(classifier::type_number(instruction.transfer, self.type_number == 5))
            == self.type_number
    }

    // The entry beside the word at its source.
    pub(crate) fn word_verdict(self, word: u32, zc: bool) -> Result<(), Reason>
        ensures { result ≡ Checks.word_verdict zc word self.pc self.target self.type_number }
    {
        if !self.is_like(word, zc) {
            Err(Reason::TypeUnlike)
        } else if !self.may_go(word) {
            Err(Reason::TargetWrong)
        } else {
            Ok(())
        }
    }
}
