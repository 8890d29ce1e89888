// The offsets of instructions that have one, in 64 bits.
ghost use Rattle.std.specs.Prelude.{◌≡◌, ◌<◌};
ghost use Rattle.dump.specs.Offsets as Offsets;
ghost use Rattle.dump.specs.Checks.{branch_offset};

use crate::fetch::is_short;

// The k bits of the word from bit n up, put from bit `to` up.
fn part(word: u32, n: u32, k: u32, to: u32) -> u64
    requires { to < 16 }
    ensures { result ≡ Offsets.part word n k to }
{
    u64::from(bits::field32(word, n, k)) << to
}

// Bit n of the word as the sign of a number: bit `to` and each one above.
fn sign(word: u32, n: u32, to: u32) -> u64
    requires { to < 64 }
    ensures { result ≡ Offsets.sign word n to }
{
    if bits::field32(word, n, 1) == 1 {
        u64::MAX - (1 << to) + 1
    } else {
        0
    }
}

// JAL.
pub(crate) fn jal_offset(word: u32) -> u64
    ensures { result ≡ Offsets.J·offset word }
{
    sign(word, 31, 20) + part(word, 21, 10, 1) + part(word, 20, 1, 11) + part(word, 12, 8, 12)
}

// Branches of 32 bits.
fn wide_branch_offset(word: u32) -> u64
    ensures { result ≡ Offsets.B·offset word }
{
    sign(word, 31, 12) + part(word, 25, 6, 5) + part(word, 8, 4, 1) + part(word, 7, 1, 11)
}

// C.J.
pub(crate) fn c_j_offset(word: u32) -> u64
    ensures { result ≡ Offsets.CJ·offset word }
{
    sign(word, 12, 11)
        + part(word, 11, 1, 4)
        + part(word, 9, 2, 8)
        + part(word, 8, 1, 10)
        + part(word, 7, 1, 6)
        + part(word, 6, 1, 7)
        + part(word, 3, 3, 1)
        + part(word, 2, 1, 5)
}

// C.BEQZ and C.BNEZ.
fn short_branch_offset(word: u32) -> u64
    ensures { result ≡ Offsets.CB·offset word }
{
    sign(word, 12, 8)
        + part(word, 10, 2, 3)
        + part(word, 5, 2, 6)
        + part(word, 3, 2, 1)
        + part(word, 2, 1, 5)
}

#[tactic(auto, unfolding(crate::specs::Checks::branch_offset))]
pub(crate) fn branch_offset(word: u32) -> u64
    ensures { result ≡ branch_offset word }
{
    if is_short(word) {
        short_branch_offset(word)
    } else {
        wide_branch_offset(word)
    }
}
