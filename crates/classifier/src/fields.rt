// The fields of an instruction word, by the names of the unprivileged manual.
ghost use Rattle.std.specs.Prelude.{◌≡◌};
ghost use Rattle.classifier.specs.Instructions as Instructions;

// Bits 6..0.
pub fn opcode(word: u32) -> u32
    ensures { result ≡ Instructions.opcode word }
{
    bits::field32(word, 0, 7)
}

// Bits 11..7.
pub fn rd(word: u32) -> u32
    ensures { result ≡ Instructions.rd word }
{
    bits::field32(word, 7, 5)
}

// Bits 14..12.
pub fn funct3(word: u32) -> u32
    ensures { result ≡ Instructions.funct3 word }
{
    bits::field32(word, 12, 3)
}

// Bits 19..15.
pub fn rs1(word: u32) -> u32
    ensures { result ≡ Instructions.rs1 word }
{
    bits::field32(word, 15, 5)
}

// Bits 1..0 of a 16-bit instruction: its quadrant, or 3 for a 32-bit one.
pub fn c_op(word: u32) -> u32
    ensures { result ≡ Instructions.C·op word }
{
    bits::field32(word, 0, 2)
}

// Bits 15..13 of a 16-bit instruction.
pub fn c_funct3(word: u32) -> u32
    ensures { result ≡ Instructions.C·funct3 word }
{
    bits::field32(word, 13, 3)
}

// Bits 15..12 of a 16-bit instruction.
pub fn c_funct4(word: u32) -> u32
    ensures { result ≡ Instructions.C·funct4 word }
{
    bits::field32(word, 12, 4)
}

// The bits of rd, in a 16-bit instruction.
pub fn c_rs1(word: u32) -> u32
    ensures { result ≡ Instructions.C·rs1 word }
{
    rd(word)
}

// Bits 15..10 of a table jump or pop-return.
pub fn cm_funct6(word: u32) -> u32
    ensures { result ≡ Instructions.CM·funct6 word }
{
    bits::field32(word, 10, 6)
}

// Bits 9..2 of a table jump.
pub fn cm_index(word: u32) -> u32
    ensures { result ≡ Instructions.CM·index word }
{
    bits::field32(word, 2, 8)
}

// Bits 9..8 of a pop-return.
pub fn cm_funct2(word: u32) -> u32
    ensures { result ≡ Instructions.CM·funct2 word }
{
    bits::field32(word, 8, 2)
}

// Bits 7..4 of a pop-return.
pub fn cm_rlist(word: u32) -> u32
    ensures { result ≡ Instructions.CM·rlist word }
{
    bits::field32(word, 4, 4)
}
