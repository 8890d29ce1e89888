// Long runs of words, sorted by a table that is filled once and then lent to the loop. A word's type hangs on its low
// 12 bits (opcode and rd) and on the 8 above them (funct3 and rs1). Low parts that the types do not tell apart have
// a row in common, high parts a column, and for each row and column there is a specimen, a word whose type all words
// there have. So a word takes three looks: for its row, for its column, and for the type of its specimen. The switch zc
// plays a part in the last alone, and that when the table is filled.
ghost use Rattle.std.specs.Prelude.{◌≡◌, ◌<◌, true};
ghost use Rattle.classifier.specs.Transfers.{transfer_of, type_of};
ghost use Rattle.classifier.specs.Tables.{group_of, near_rank, far_rank, rank_of, row_of, column_of, low_of, specimen_of, cell_of, Table};

// The table: the row of each of 4,096 low parts, the column of each of 256 high parts, the types of 1,024 specimens.
pub const CELLS: usize = 5376;

// An opcode for each group of them, eight bits to a group.
const OPCODES: u64 = 0x0006_0201_6F67_6300;

// The kind of each register, two bits to a register: as rd it is x0, x1, x5 or
// another, as rs1 even, x1, x5 or another odd one.
const DESTINATIONS: u64 = 0xFFFF_FFFF_FFFF_FBF4;

const BASES: u64 = 0xCCCC_CCCC_CCCC_C8C4;

// A register of each kind, eight bits to a kind.
const REGISTERS: u64 = 0x0305_0100;

// In quadrant 2, by bits 11..6, a bit to each, whether pop-returns have the low part: bits 11..10 are 11, bit 8 is 0,
// and rlist, whose two high bits come next, is not below 4.
const POP_LOWS: u64 = 0x0E0E_0000_0000_0000;

// A low part of each rank from 28 on, twelve bits to a rank. No low part has rank 30.
const FAR_LOWS: u64 = 0xC86_000_C82_402;

// The opcodes that are told apart.
#[tactic(auto, unfolding(crate::specs::Tables::group_of))]
fn group(opcode: u32) -> u64
    ensures { result ≡ group_of opcode }
{
    if opcode == 0x63 {
        1
    } else if opcode == 0x67 {
        2
    } else if opcode == 0x6F {
        3
    } else if opcode % 4 == 1 {
        4
    } else if opcode == 0x02 {
        5
    } else if opcode % 4 == 2 {
        6
    } else {
        0
    }
}

// The rank of a low part by opcode and rd.
#[tactic(auto, using(crate::proofs::Specimens::group_bound), unfolding(crate::specs::Tables::near_rank, crate::specs::Tables::destination_of))]
fn near_rank(low: u32) -> u64
    requires { low < 4096 }
    ensures { result ≡ near_rank low }
{
    4 * group(low % 128) + bits::field64(DESTINATIONS, 2 * (low / 128), 2)
}

// In quadrant 2, with bits 11..10 not 00: the opcode of C.JR and C.JALR, where pop-returns have the low part too or not;
// of other opcodes pop-returns, and the rest, which are none.
#[tactic(auto, unfolding(crate::specs::Tables::far_rank, crate::specs::Tables::pop_of))]
fn far_rank(low: u32) -> u64
    requires { low < 4096 }
    ensures { result ≡ far_rank low }
{
    let pop = bits::field64(POP_LOWS, low / 64, 1);
    if low % 128 == 2 {
        28 + pop
    } else {
        3 + 28 * pop
    }
}

// The rank of a low part among 32. Bits 11..10 of a table jump are 00.
#[tactic(auto, unfolding(crate::specs::Tables::rank_of))]
fn rank(low: u32) -> u64
    requires { low < 4096 }
    ensures { result ≡ rank_of low }
{
    if low % 4 == 2 {
        if low < 1024 {
            near_rank(low)
        } else {
            far_rank(low)
        }
    } else {
        near_rank(low)
    }
}

// Rows are multiples of 8, so that 4 times a row and a column make a key.
#[tactic(auto, using(crate::proofs::Specimens::rank_bound), unfolding(crate::specs::Tables::row_of))]
fn row(low: u32) -> u64
    requires { low < 4096 }
    ensures { result ≡ row_of low }
{
    8 * rank(low)
}

#[tactic(auto, unfolding(crate::specs::Tables::column_of, crate::specs::Tables::base_of))]
fn column(high: u32) -> u64
    requires { high < 256 }
    ensures { result ≡ column_of high }
{
    u64::from(high % 8) + 8 * bits::field64(BASES, 2 * (high / 8), 2)
}

// The low part that stands for all of a rank.
#[tactic(auto, unfolding(crate::specs::Tables::low_of, crate::specs::Tables::opcode_of, crate::specs::Tables::register_of))]
fn low_part(rank: u32) -> u64
    requires { rank < 32 }
    ensures { result ≡ low_of rank }
{
    if rank < 28 {
        bits::field64(OPCODES, 8 * (rank / 4), 7)
            + 128 * bits::field64(REGISTERS, 8 * (rank % 4), 5)
    } else {
        bits::field64(FAR_LOWS, 12 * (rank - 28), 12)
    }
}

// The word that stands for all with a key.
#[tactic(auto, using(crate::proofs::Specimens::low_bound), unfolding(crate::specs::Tables::specimen_of, crate::specs::Tables::register_of))]
fn specimen(key: u32) -> u64
    requires { key < 1024 }
    ensures { result ≡ specimen_of key }
{
    let low = low_part(key / 32);
    let rs1 = bits::field64(REGISTERS, 8 * (key / 8 % 4), 5);
    low + 4096 * (u64::from(key % 8) + 8 * rs1)
}

// What is tabled at i.
#[tactic(auto, using(crate::proofs::Specimens::bounds), unfolding(crate::specs::Tables::cell_of))]
fn cell(zc: bool, i: u32) -> u8
    requires { i < 5376 }
    ensures { result ≡ cell_of zc i }
{
    if i < 4096 {
        row(i) as u8
    } else if i < 4352 {
        column(i - 4096) as u8
    } else {
        crate::exports::ctr_classify(specimen(i - 4352) as u32, true, zc)
    }
}

// A table filled with the switch zc.
pub fn filled_table(zc: bool) -> [u8; CELLS]
    ensures { Table zc result }
{
    let mut table = [0; CELLS];
    for (i, place) in table.iter_mut().enumerate() {
        *place = cell(zc, i as u32);
    }
    table
}

// The type of a word, a branch as taken, by a table that was filled with the switch zc, which stands here for the
// contract alone.
pub fn look_up(table: &[u8; CELLS], zc: bool, word: u32) -> u8
    requires { Table zc table.now }
    ensures { result ≡ type_of (transfer_of zc word) true }
{
    let row = usize::from(table[bits::field32(word, 0, 12) as usize]);
    let column = usize::from(table[4096 + bits::field32(word, 12, 8) as usize]);
    table[4352 + (4 * row + column)]
}
