// Bits, fields, masks and ranges of words: shifts and masks in the code, plain arithmetic in the contracts.
// A position past the word reads 0, so no function asks anything of its arguments.
#![tactic(auto)]

ghost use Rattle.std.specs.Prelude.{◌≡◌, ◌+◌, ◌*◌, ◌/◌, ◌%◌, ◌^◌, eqb};
ghost use Rattle.std.specs.Prelude.{if◌then◌else◌};
ghost use Rattle.bits.specs.Words.{bit_at, field_at, keep, joined, without, is_from_to};

// Whether bit n of x is set.
pub fn bit(x: u64, n: u32) -> bool
    ensures { result ≡ eqb (bit_at x n) 1 }
{
    field64(x, n, 1) == 1
}

// The k bits of x from bit n up.
#[tactic(auto, using(crate::proofs::Laws::past, crate::proofs::Laws::whole, crate::proofs::Laws::field_mask))]
pub fn field64(x: u64, n: u32, k: u32) -> u64
    ensures { result ≡ field_at x n k }
{
    if n < 64 {
        if k < 64 {
            (x >> n) & ((1 << k) - 1)
        } else {
            x >> n
        }
    } else {
        0
    }
}

// The k low bits of x.
pub fn low(x: u64, k: u32) -> u64
    ensures { result ≡ x % 2 ^ k }
{
    field64(x, 0, k)
}

// The same of a word of 32 bits.
pub fn field32(w: u32, n: u32, k: u32) -> u32
    ensures { result ≡ field_at w n k }
{
    field64(u64::from(w), n, k) as u32
}

// x with only the bits of m.
#[tactic(auto, unfolding(crate::specs::Words::keep))]
pub fn masked(x: u64, m: u64) -> u64
    ensures { result ≡ keep m x }
{
    x & m
}

// The bits of x and those of y.
#[tactic(auto, unfolding(crate::specs::Words::joined))]
pub fn join(x: u64, y: u64) -> u64
    ensures { result ≡ joined x y }
{
    x | y
}

// x without the bits of y.
#[tactic(auto, unfolding(crate::specs::Words::without))]
pub fn strip(x: u64, y: u64) -> u64
    ensures { result ≡ without x y }
{
    x & !y
}

// x with bit 0 set.
#[tactic(auto, using(crate::proofs::Laws::low_set))]
pub fn set_bit0(x: u64) -> u64
    ensures { result ≡ x / 2 * 2 + 1 }
{
    x | 1
}

// x with bit 0 clear.
pub fn clear_bit0(x: u64) -> u64
    ensures { result ≡ x / 2 * 2 }
{
    x & 0xFFFF_FFFF_FFFF_FFFE
}

// x with bit 0 as given.
pub fn with_bit0(x: u64, b: bool) -> u64
    ensures { result ≡ x / 2 * 2 + (if b then 1 else 0) }
{
    if b { set_bit0(x) } else { clear_bit0(x) }
}

// Whether a number lies from the first to the last.
pub fn is_from_to(first: u64, last: u64, number: u64) -> bool
    ensures { result ≡ is_from_to first last number }
{
    first <= number && number <= last
}
