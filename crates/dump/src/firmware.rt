// Firmware: where it may lie, and whether entries fit it.
#![tactic(auto, using(std::proofs::lemmas::Bool::Decides::nat_tests), unfolding(crate::specs::Checks::is_placed, crate::specs::Checks::fetched_verdict, crate::specs::Checks::type_verdict, crate::specs::Checks::verdict_of))]

ghost use Rattle.std.specs.Prelude.{◌≡◌, ◌/◌, length};
ghost use Rattle.dump.specs.Checks as Checks;

use crate::entries::Entry;
use crate::{Reason, Rejection};

// Code bytes from a base address on, and whether the machine has Zcmp and Zcmt.
#[derive(Clone, Copy)]
pub(crate) struct Firmware<'a> {
    pub(crate) code: &'a [u8],
    pub(crate) base: u64,
    pub(crate) zc: bool,
}

impl Firmware<'_> {
    // Whether the image may lie from its base on: at an even address, and not past 2^64.
    pub(crate) fn is_placed(&self) -> bool
        ensures { result ≡ Checks.is_placed self.now.base (length self.now.code.now) }
    {
        let size = self.code.len() as u64;
        self.base % 2 == 0 && (self.base == 0 || size <= u64::MAX - self.base + 1)
    }

    // An entry by its type: exceptions, interrupts and trap returns fit, whatever their source, and 0, 6 and 7 do not.
    fn type_verdict(&self, entry: Entry) -> Result<(), Reason>
        ensures { result ≡ Checks.type_verdict self.now.code.now self.now.base self.now.zc entry.pc entry.target entry.type_number }
    {
        match entry.type_number {
            1..=3 => Ok(()),
            4 | 5 | 8..=15 => entry.word_verdict(self.fetch(entry.pc)?, self.zc),
            _ => Err(Reason::TypeUnlike),
        }
    }

    // An entry by its words. Without V it is not looked at; of ctrdata TYPE alone is.
    fn verdict_of(&self, source: u64, target: u64, data: u64) -> Result<(), Reason>
        ensures { result ≡ Checks.verdict_of self.now.code.now self.now.base self.now.zc source target «data» }
    {
        if bits::bit(source, 0) {
            self.type_verdict(Entry {
                pc: bits::clear_bit0(source),
                target: bits::clear_bit0(target),
                type_number: bits::low(data, 4),
            })
        } else {
            Ok(())
        }
    }

    // All entries, three words each, up to the first misfit.
    pub(crate) fn check_entries(&self, words: &[u64]) -> Result<(), Rejection>
        ensures { result ≡ Checks.checked_from self.now.code.now self.now.base self.now.zc words.now 0 (length words.now / 3) }
    {
        let (entries, _) = words.as_chunks::<3>();
        for (i, &[source, target, data]) in entries.iter().enumerate() {
            self.verdict_of(source, target, data)
                .map_err(|reason| Rejection::Misfit(i, reason))?;
        }
        Ok(())
    }
}
