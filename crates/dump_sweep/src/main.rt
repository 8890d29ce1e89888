// Checks dumps of one entry and of two against small images: specimens of words with an entry that fits,
// and what comes of it if the entry, the image, its base or the dump's length are changed. Images lie at
// both ends of the address space, in its middle and elsewhere, and the switch is off and on. Prints, for
// each group of changes, how often each answer was given, and a digest of all answers. The gate compares
// it with what the model prints.
#![tactic(auto)]

ghost use Rattle.std.specs.Prelude.{◌<◌, ◌≤◌};

mod cases;
mod input;
mod tally;

use cases::{Group, Setting};
use input::WORDS;
use std::io;
use tally::Tally;
use text::Page;

// The groups, in the order in which they are printed.
const GROUPS: [Group; 9] = [
    Group::Good,
    Group::Types,
    Group::SourceBits,
    Group::TargetBits,
    Group::DataBits,
    Group::ImagesCut,
    Group::Bases,
    Group::Lengths,
    Group::Pairs,
];

// The bytes of an image.
const SIZE: usize = 16;

// Where a specimen lies in its image.
fn place_of(k: usize) -> usize
    ensures { result ≤ 8 }
{
    2 * (k % 5)
}

// An image of C.NOPs but for the word.
fn image_of(word: u64, place: usize) -> [u8; SIZE]
    requires { place ≤ 8 }
{
    let mut image = [1u8, 0, 1, 0, 1, 0, 1, 0, 1, 0, 1, 0, 1, 0, 1, 0];
    let bytes = word.to_le_bytes();
    image[place..place + 4].copy_from_slice(&bytes[..4]);
    image
}

// Where the image lies: at the start, elsewhere, around the middle of the address space, at its end.
fn base_of(k: u64) -> u64 {
    match k {
        0 => 0,
        1 => 0x8040_0000,
        2 => 0x7FFF_FFFF_FFFF_FFF8,
        _ => 0xFFFF_FFFF_FFFF_FFF0,
    }
}

// Setting j of eight for a specimen at a place in an image.
fn setting_of(image: &[u8], place: usize, j: u64, kind: u64, way: u64) -> Setting<'_> {
    let base = base_of(j / 2);
    let pc = base.wrapping_add(place as u64);
    Setting {
        image,
        base,
        place,
        source: bits::set_bit0(pc),
        target: pc.wrapping_add(way),
        kind,
        zc: j % 2 == 1,
    }
}

// Specimen k in all settings.
fn run_specimen(tally: &mut Tally, group: Group, k: usize, word: u64, kind: u64, way: u64) {
    let place = place_of(k);
    let image = image_of(word, place);
    for j in 0..8 {
        let setting = setting_of(&image, place, j, kind, way);
        for i in 0..group.case_count() {
            setting.run_case(tally, group, i);
        }
    }
}

fn run_group(words: &[u64; WORDS], group: Group, digest: u64) -> Tally {
    let mut tally = Tally::after(digest);
    let (specimens, _) = words.as_chunks::<3>();
    for (k, &[word, kind, way]) in specimens.iter().enumerate() {
        run_specimen(&mut tally, group, k, word, kind, way);
    }
    tally
}

// A group's line: its name and its counts. The digest goes on with the next group.
fn report(rt: &impl Print, words: &[u64; WORDS], group: Group, digest: u64) -> u64 {
    let tally = run_group(words, group, digest);
    let mut buffer = [0u8; 256];
    let mut line = Page::new(&mut buffer);
    line.put(group.name());
    for count in tally.counts {
        line.put_byte(b' ');
        line.put_decimal(count);
    }
    line.put_byte(b'\n');
    console::write(&mut io::writer(rt), line.text());
    tally.digest
}

fn report_digest(rt: &impl Print, digest: u64) {
    let mut buffer = [0u8; 64];
    let mut line = Page::new(&mut buffer);
    line.put(b"digest 0x");
    line.put_hex(digest, 16);
    line.put_byte(b'\n');
    console::write(&mut io::writer(rt), line.text());
}

fn main(rt: HostRuntime) {
    let mut words = [0u64; WORDS];
    input::read_words(&rt, &mut words);
    console::write(
        &mut io::writer(&rt),
        b"group accepted outside cut-off type target 6 11\n",
    );
    let mut digest = 0;
    for group in GROUPS {
        digest = report(&rt, &words, group, digest);
    }
    report_digest(&rt, digest);
}
