// The check: of the operands first the base, then the image, then the dump.
use crate::{arguments, bases, files, problems, report};
use console::{Complain, LONGEST_NAME};
use std::env::Env;
use std::fs::Files;

// How many bytes an image and a dump have at most, and how many words those of a dump are.
const IMAGE_BYTES: usize = 4194304;

const DUMP_BYTES: usize = 98304;

const WORDS: usize = 12288;

// What a dump is checked against: the image, the address of its first byte, and whether Zcmp and Zcmt are on.
#[derive(Clone, Copy)]
struct Firmware<'a> {
    image: &'a [u8],
    base: u64,
    zc: bool,
}

impl Firmware<'_> {
    fn check_words(&self, rt: &(impl Print + Complain), bytes: &[u8]) {
        let mut words = [0u64; WORDS];
        let count = console::put_words(&mut words, bytes);
        let entries = &words[..count];
        report::print(
            rt,
            dump::check(self.image, self.base, entries, self.zc),
            entries,
        );
    }

    // The bytes of the dump, if they are whole words.
    fn check_bytes(&self, rt: &(impl Print + Complain), name: &[u8], bytes: &[u8]) {
        let left = bytes.len() % 8;
        if left == 0 {
            self.check_words(rt, bytes);
        } else {
            problems::left_over(rt, name, left as u64, (bytes.len() / 8) as u64);
        }
    }

    fn check_file(&self, rt: &(impl Files + Print + Complain), name: &[u8]) {
        let mut buffer = [0u8; DUMP_BYTES];
        if let Some(bytes) = files::read(rt, name, &mut buffer) {
            self.check_bytes(rt, name, bytes);
        }
    }

    // The dump that argument i names.
    fn check_dump(&self, rt: &(impl Files + Env + Print + Complain), i: usize) {
        let mut buffer = [0u8; LONGEST_NAME];
        if let Some(name) = arguments::read(rt, i, &mut buffer) {
            self.check_file(rt, name);
        }
    }
}

// The operands by their numbers among the arguments, and whether Zcmp and Zcmt are on.
#[derive(Clone, Copy)]
pub(crate) struct Operands {
    pub(crate) image: usize,
    pub(crate) base: usize,
    pub(crate) dump: usize,
    pub(crate) zc: bool,
}

impl Operands {
    // The image of this name, read into the lent buffer, and the dump.
    fn check_into(
        self,
        rt: &(impl Files + Env + Print + Complain),
        buffer: &mut [u8; IMAGE_BYTES],
        name: &[u8],
        base: u64,
    ) {
        if let Some(image) = files::read(rt, name, buffer) {
            let firmware = Firmware {
                image,
                base,
                zc: self.zc,
            };
            firmware.check_dump(rt, self.dump);
        }
    }

    fn check_image(self, rt: &(impl Files + Env + Print + Complain), name: &[u8], base: u64) {
        let mut buffer = [0u8; IMAGE_BYTES];
        self.check_into(rt, &mut buffer, name, base);
    }

    fn check_at(self, rt: &(impl Files + Env + Print + Complain), base: u64) {
        let mut buffer = [0u8; LONGEST_NAME];
        if let Some(name) = arguments::read(rt, self.image, &mut buffer) {
            self.check_image(rt, name, base);
        }
    }

    pub(crate) fn check(self, rt: &(impl Files + Env + Print + Complain)) {
        let mut buffer = [0u8; LONGEST_NAME];
        if let Some(text) = arguments::read(rt, self.base, &mut buffer) {
            match bases::number(text) {
                Some(base) => self.check_at(rt, base),
                None => problems::no_number(rt, text),
            }
        }
    }
}
