// The word classifier: which control transfer an instruction word is, and its length (docs/RULES.md, T).
#![tactic(auto)]

pub mod exports;
mod fields;
mod runs;
mod tables;

ghost use Rattle.std.specs.Prelude.{◌≡◌, ◌&&◌};
ghost use Rattle.classifier.specs.Instructions.{length_of, C·FSDSP};
ghost use Rattle.classifier.specs.Transfers.{plain_transfer, transfer_of, instruction_of, type_of};
ghost use Rattle.classifier.specs.Transfers.{link as Transfers·link};
ghost use Rattle.classifier.specs.Decision.{branch_by, jalr_by, indirect_by, direct_by, wide_by, may_transfer, quadrant1_by, register_jump_by, pop_return_by, pop_by, switched_by};

#[derive(Clone, Copy)]
pub enum Transfer {
    None,
    Branch,
    IndirectCall,
    DirectCall,
    IndirectJump,
    DirectJump,
    CoroutineSwap,
    FunctionReturn,
    OtherIndirectJump,
    OtherDirectJump,
}

// What an instruction word is: its transfer, and its length in bytes.
#[derive(Clone, Copy)]
pub struct Instruction {
    pub transfer: Transfer,
    pub length: u8,
}

// Whether r is a link register.
fn link(r: u32) -> bool
    ensures { result ≡ Transfers·link r }
{
    r == 1 || r == 5
}

// The branch opcode. funct3 2 and 3 are reserved.
#[tactic(auto, unfolding(crate::specs::Decision::branch_by))]
fn branch(funct3: u32) -> Transfer
    ensures { result ≡ branch_by funct3 }
{
    match funct3 {
        // BEQ, BNE, BLT, BGE, BLTU and BGEU
        0 | 1 | 4 | 5 | 6 | 7 => Transfer::Branch,
        _ => Transfer::None,
    }
}

// JALR's opcode: funct3 not 0 is reserved.
#[tactic(auto, unfolding(crate::specs::Decision::jalr_by))]
fn jalr(funct3: u32, rd: u32, rs1: u32) -> Transfer
    ensures { result ≡ jalr_by funct3 rd rs1 }
{
    if funct3 == 0 {
        indirect(rd, rs1)
    } else {
        Transfer::None
    }
}

// A jump by register, by its two registers.
#[tactic(auto, unfolding(crate::specs::Decision::indirect_by))]
fn indirect(rd: u32, rs1: u32) -> Transfer
    ensures { result ≡ indirect_by rd rs1 }
{
    if rd == 1 {
        if rs1 == 5 {
            Transfer::CoroutineSwap
        } else {
            Transfer::IndirectCall
        }
    } else if rd == 5 {
        if rs1 == 1 {
            Transfer::CoroutineSwap
        } else {
            Transfer::IndirectCall
        }
    } else if link(rs1) {
        Transfer::FunctionReturn
    } else if rd == 0 {
        Transfer::IndirectJump
    } else {
        Transfer::OtherIndirectJump
    }
}

// A jump by offset, by its register.
#[tactic(auto, unfolding(crate::specs::Decision::direct_by))]
fn direct(rd: u32) -> Transfer
    ensures { result ≡ direct_by rd }
{
    if link(rd) {
        Transfer::DirectCall
    } else if rd == 0 {
        Transfer::DirectJump
    } else {
        Transfer::OtherDirectJump
    }
}

// A 32-bit instruction.
#[tactic(auto, unfolding(crate::specs::Decision::wide_by))]
fn wide(opcode: u32, funct3: u32, rd: u32, rs1: u32) -> Transfer
    ensures { result ≡ wide_by opcode funct3 rd rs1 }
{
    if opcode == 0x63 {
        branch(funct3)
    } else if opcode == 0x6F {
        direct(rd)
    } else if opcode == 0x67 {
        jalr(funct3, rd, rs1)
    } else {
        Transfer::None
    }
}

// Whether a 32-bit instruction may be a transfer at all. Most may not.
fn may_transfer(word: u32) -> bool
    ensures { result ≡ may_transfer word }
{
    bits::field32(word, 4, 3) == 0b110
}

// C.J, C.BEQZ and C.BNEZ.
#[tactic(auto, unfolding(crate::specs::Decision::quadrant1_by))]
fn quadrant1(funct3: u32) -> Transfer
    ensures { result ≡ quadrant1_by funct3 }
{
    match funct3 {
        5 => direct(0),
        6 | 7 => Transfer::Branch,
        _ => Transfer::None,
    }
}

// C.JR, which is JALR with rd x0, and C.JALR, with rd x1. With rs1 x0 their codes are reserved and C.EBREAK.
#[tactic(auto, unfolding(crate::specs::Decision::register_jump_by))]
fn register_jump(funct4: u32, rs1: u32) -> Transfer
    ensures { result ≡ register_jump_by funct4 rs1 }
{
    if rs1 == 0 {
        Transfer::None
    } else if funct4 == 8 {
        indirect(0, rs1)
    } else if funct4 == 9 {
        indirect(1, rs1)
    } else {
        Transfer::None
    }
}

// A pop-return. rlist below 4 is reserved.
#[tactic(auto, unfolding(crate::specs::Decision::pop_return_by))]
fn pop_return(rlist: u32) -> Transfer
    ensures { result ≡ pop_return_by rlist }
{
    if rlist < 4 {
        Transfer::None
    } else {
        Transfer::FunctionReturn
    }
}

// CM.POPRET and CM.POPRETZ.
#[tactic(auto, unfolding(crate::specs::Decision::pop_by))]
fn pop(funct2: u32, rlist: u32) -> Transfer
    ensures { result ≡ pop_by funct2 rlist }
{
    match funct2 {
        0b00 | 0b10 => pop_return(rlist),
        _ => Transfer::None,
    }
}

// Zcmt and Zcmp: CM.JT and CM.JALT have funct6 101000, the pop-returns 101111.
#[tactic(auto, unfolding(crate::specs::Decision::switched_by))]
fn switched(funct6: u32, index: u32, funct2: u32, rlist: u32) -> Transfer
    ensures { result ≡ switched_by funct6 index funct2 rlist }
{
    if funct6 == 0b10_1000 {
        if index < 32 {
            Transfer::DirectJump
        } else {
            Transfer::DirectCall
        }
    } else if funct6 == 0b10_1111 {
        pop(funct2, rlist)
    } else {
        Transfer::None
    }
}

// Whether a word has a code of C.FSDSP, among which are those of Zcmp and Zcmt.
fn is_fsdsp(word: u32) -> bool
    ensures { result ≡ C·FSDSP word }
{
    fields::c_op(word) == 2 && fields::c_funct3(word) == 5
}

// Whether the switch is on and a word has a code of C.FSDSP.
fn is_switched(word: u32, zc: bool) -> bool
    ensures { result ≡ (zc && C·FSDSP word) }
{
    zc && is_fsdsp(word)
}

// The transfer that a word is with the switch off. C.JR and C.JALR have 2 in their seven low bits: with rs2 not x0
// they would be C.MV and C.ADD.
#[tactic(auto, using(crate::proofs::Sorted::by_tests), unfolding(crate::specs::Decision::plain_decision))]
fn plain_transfer(word: u32) -> Transfer
    ensures { result ≡ plain_transfer word }
{
    let op = fields::c_op(word);
    if op == 3 {
        if may_transfer(word) {
            wide(
                fields::opcode(word),
                fields::funct3(word),
                fields::rd(word),
                fields::rs1(word),
            )
        } else {
            Transfer::None
        }
    } else if op == 1 {
        quadrant1(fields::c_funct3(word))
    } else if fields::opcode(word) == 2 {
        register_jump(fields::c_funct4(word), fields::c_rs1(word))
    } else {
        Transfer::None
    }
}

// The transfer that a word is.
#[tactic(auto, using(crate::proofs::Switch::by_tests), unfolding(crate::specs::Decision::decision_of))]
fn transfer_of(word: u32, zc: bool) -> Transfer
    ensures { result ≡ transfer_of zc word }
{
    if is_switched(word, zc) {
        switched(
            fields::cm_funct6(word),
            fields::cm_index(word),
            fields::cm_funct2(word),
            fields::cm_rlist(word),
        )
    } else {
        plain_transfer(word)
    }
}

// The length of a word's instruction in bytes.
pub fn length(word: u32) -> u8
    ensures { result ≡ length_of word }
{
    if fields::c_op(word) == 3 { 4 } else { 2 }
}

// What an instruction word is. The switch zc says whether the machine has Zcmp and Zcmt.
pub fn classify(word: u32, zc: bool) -> Instruction
    ensures { result ≡ instruction_of zc word }
{
    Instruction {
        transfer: transfer_of(word, zc),
        length: length(word),
    }
}

// The number of a transfer's type; a branch goes by whether it is taken, and none is 0.
pub fn type_number(t: Transfer, taken: bool) -> u8
    ensures { result ≡ type_of t taken }
{
    match t {
        Transfer::None => 0,
        Transfer::Branch => if taken { 5 } else { 4 },
        Transfer::IndirectCall => 8,
        Transfer::DirectCall => 9,
        Transfer::IndirectJump => 10,
        Transfer::DirectJump => 11,
        Transfer::CoroutineSwap => 12,
        Transfer::FunctionReturn => 13,
        Transfer::OtherIndirectJump => 14,
        Transfer::OtherDirectJump => 15,
    }
}
