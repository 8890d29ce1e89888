// A specimen in an image at a place in memory, and what is tried with it.
use crate::tally::Tally;
use text::before;

// What is changed: nothing; the type, also where no whole word is; each bit of source, target and the other bits of
// ctrdata; the image, which is cut; its base; the dump's length; and pairs of entries.
#[derive(Clone, Copy)]
pub(crate) enum Group {
    Good,
    Types,
    SourceBits,
    TargetBits,
    DataBits,
    ImagesCut,
    Bases,
    Lengths,
    Pairs,
}

impl Group {
    // How many cases a group has.
    pub(crate) fn case_count(self) -> u64 {
        match self {
            Group::Good => 1,
            Group::Types => 48,
            Group::SourceBits => 64,
            Group::TargetBits => 64,
            Group::DataBits => 60,
            Group::ImagesCut => 5,
            Group::Bases => 16,
            Group::Lengths => 8,
            Group::Pairs => 16,
        }
    }

    pub(crate) fn name(self) -> &'static [u8] {
        match self {
            Group::Good => b"good",
            Group::Types => b"types",
            Group::SourceBits => b"source-bits",
            Group::TargetBits => b"target-bits",
            Group::DataBits => b"data-bits",
            Group::ImagesCut => b"images-cut",
            Group::Bases => b"bases",
            Group::Lengths => b"lengths",
            Group::Pairs => b"pairs",
        }
    }
}

// The words of two entries and one more.
const WORDS: usize = 7;

// An entry for a specimen at a place in an image at a base, with the switch zc.
#[derive(Clone, Copy)]
pub(crate) struct Setting<'a> {
    pub(crate) image: &'a [u8],
    pub(crate) base: u64,
    pub(crate) place: usize,
    pub(crate) source: u64,
    pub(crate) target: u64,
    pub(crate) kind: u64,
    pub(crate) zc: bool,
}

fn bit(n: u64) -> u64 {
    if n < 64 { 1 << n } else { 0 }
}

impl Setting<'_> {
    // The entry with other words.
    fn try_entry(&self, tally: &mut Tally, source: u64, target: u64, data: u64) {
        tally.check(self.image, self.base, &[source, target, data], self.zc);
    }

    // The entry in an image that is cut.
    fn try_image(&self, tally: &mut Tally, size: usize, kind: u64) {
        let entries = [self.source, self.target, kind];
        tally.check(before(self.image, size), self.base, &entries, self.zc);
    }

    // Bases from which the image of 16 bytes, or 15 of them, ends around 2^64; some are odd.
    fn try_base(&self, tally: &mut Tally, i: u64) {
        let entries = [self.source, self.target, self.kind];
        let base = (i / 2).wrapping_add(0xFFFF_FFFF_FFFF_FFEC);
        let size = 16 - (i % 2) as usize;
        tally.check(before(self.image, size), base, &entries, self.zc);
    }

    // Each type at the word, at a source outside the image, and at a word that is cut off.
    fn try_type(&self, tally: &mut Tally, i: u64) {
        let kind = i % 16;
        match i / 16 {
            0 => self.try_entry(tally, self.source, self.target, kind),
            1 => self.try_entry(tally, self.source ^ 0x1_0000, self.target, kind),
            _ => self.try_image(tally, self.place.min(8) + 1, kind),
        }
    }

    // An entry of a pair: the good one, one that is not valid, one of a type that no word has, and one with
    // another target.
    fn entry(&self, k: u64) -> [u64; 3] {
        match k {
            1 => [self.source ^ 1, self.target, 0],
            2 => [self.source, self.target, 6],
            3 => [self.source, self.target ^ 4, self.kind],
            _ => [self.source, self.target, self.kind],
        }
    }

    // The first n words of two entries and one more.
    fn try_words(&self, tally: &mut Tally, a: u64, b: u64, n: usize) {
        let [source, target, kind] = self.entry(a);
        let [source_b, target_b, kind_b] = self.entry(b);
        let words: [u64; WORDS] = [
            source,
            target,
            kind,
            source_b,
            target_b,
            kind_b,
            self.source,
        ];
        tally.check(self.image, self.base, &words[..n.min(WORDS)], self.zc);
    }

    // Case i of a group.
    pub(crate) fn run_case(&self, tally: &mut Tally, group: Group, i: u64) {
        match group {
            Group::Good => self.try_entry(tally, self.source, self.target, self.kind),
            Group::Types => self.try_type(tally, i),
            Group::SourceBits => self.try_entry(
                tally,
                self.source ^ bit(i),
                self.target,
                self.kind,
            ),
            Group::TargetBits => self.try_entry(
                tally,
                self.source,
                self.target ^ bit(i),
                self.kind,
            ),
            Group::DataBits => {
                let kind = self.kind ^ bit(i.wrapping_add(4));
                self.try_entry(tally, self.source, self.target, kind);
            }
            Group::ImagesCut => {
                let size = self.place.min(8) + (i as usize).min(8);
                self.try_image(tally, size, self.kind);
            }
            Group::Bases => self.try_base(tally, i),
            Group::Lengths => self.try_words(tally, 0, 0, i as usize),
            Group::Pairs => self.try_words(tally, i / 4, i % 4, 6),
        }
    }
}
