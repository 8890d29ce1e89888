// What the test programs share: pseudo-random words from a fixed seed, a digest of the words that a test saw, and counts.
#![tactic(auto)]

ghost use Rattle.std.specs.Prelude.{◌≡◌};
ghost use Rattle.test_support.specs.Words.{seed, xorshift, digested, digested_all};
ghost use Rattle.test_support.specs.Counts.{counted, counted_at};

// Where every sequence of words starts.
pub const SEED: u64 = 88172645463325252;

// The word after x.
#[tactic(auto, unfolding(crate::specs::Words::xorshift))]
pub fn xorshift64(x: u64) -> u64
    ensures { result ≡ xorshift x }
{
    let a = x ^ (x << 13);
    let b = a ^ (a >> 7);
    b ^ (b << 17)
}

// A sequence of pseudo-random words, by the last one that was drawn.
#[derive(Clone, Copy)]
pub struct Random {
    pub last: u64,
}

impl Random {
    // The sequence from its start.
    pub fn new() -> Random
        ensures { result.last ≡ seed }
    {
        Random { last: SEED }
    }

    // Draws the next word.
    pub fn draw(&mut self) -> u64
        ensures drawn { result ≡ xorshift self.old.last }
        ensures last { self.new.last ≡ result }
    {
        self.last = xorshift64(self.last);
        self.last
    }
}

// The digest h with the word w taken in.
pub fn digest(h: u64, w: u64) -> u64
    ensures { result ≡ digested h w }
{
    (h.rotate_left(5) ^ w).wrapping_add(0x9E37_79B9_7F4A_7C15)
}

// The digest h with words taken in.
pub fn digest_words(h: u64, words: &[u64]) -> u64
    ensures { result ≡ digested_all h words.now }
{
    let mut d = h;
    for w in words {
        d = digest(d, *w);
    }
    d
}

// One more, where something happened. A count wraps at 64 bits.
pub fn count(n: &mut u64, happened: bool)
    ensures { n.new ≡ counted n.old happened }
{
    if happened {
        *n = n.wrapping_add(1);
    }
}

// One more at a place, if it is there.
#[tactic(auto, using(std::proofs::lemmas::Grind::common_steps))]
pub fn count_at(counts: &mut [u64], place: u64)
    ensures { counts.new ≡ counted_at counts.old place }
{
    if place < counts.len() as u64 {
        count(&mut counts[place as usize], true);
    }
}
