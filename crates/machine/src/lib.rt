// The machine that the recorder watches: modes, registers and events (docs/RULES.md, S and R).
#![tactic(auto)]

pub mod answers;
pub mod controls;
pub mod depths;
pub mod entries;
pub mod good;
pub mod modes;
pub mod regs;

#[derive(Clone, Copy, PartialEq, Eq)]
pub enum Mode {
    U,
    S,
    M,
    VU,
    VS,
}

// A control register; sctrctl is a window on mctrctl.
#[derive(Clone, Copy, PartialEq, Eq)]
pub enum ControlRegister {
    Mctrctl,
    Vsctrctl,
}

// A bit of a control register, and its place there.
#[derive(Clone, Copy, PartialEq, Eq)]
pub enum ControlBit {
    U = 0,
    S = 1,
    M = 2,
    RASEMU = 7,
    STE = 8,
    MTE = 9,
    BPFRZ = 11,
    LCOFIFRZ = 12,
    EXCINH = 33,
    INTRINH = 34,
    TRETINH = 35,
    NTBREN = 36,
    TKBRINH = 37,
    INDCALLINH = 40,
    DIRCALLINH = 41,
    INDJMPINH = 42,
    DIRJMPINH = 43,
    CORSWAPINH = 44,
    RETINH = 45,
    INDLJMPINH = 46,
    DIRLJMPINH = 47,
}

#[derive(Clone, Copy, Default, PartialEq, Eq)]
pub struct ControlWords {
    pub mctrctl: u64,
    pub vsctrctl: u64,
}

// The buffer but for its entries: the depth code, WRPTR and FROZEN.
#[derive(Clone, Copy, Default)]
pub struct Buffer {
    pub code: u64,
    pub wrptr: u64,
    pub frozen: bool,
}

#[derive(Clone, Copy, Default)]
pub struct Selects {
    pub siselect: u64,
    pub vsiselect: u64,
}

// The CTR bits of the state-enable registers.
#[derive(Clone, Copy, Default)]
pub struct Enables {
    pub mstateen0: bool,
    pub hstateen0: bool,
}

// The cycle counter, and the CCV that an ordinary record would now get.
#[derive(Clone, Copy, Default)]
pub struct Cycles {
    pub counter: u64,
    pub ccv: bool,
}

// What is fixed at reset and no event changes: whether the machine has Zcmp and Zcmt.
#[derive(Clone, Copy)]
pub struct Constants {
    pub zc: bool,
}

// All small state, in groups. Any value of the fields is possible.
#[derive(Clone, Copy)]
pub struct Registers {
    pub mode: Mode,
    pub controls: ControlWords,
    pub buffer: Buffer,
    pub selects: Selects,
    pub cycles: Cycles,
    pub enables: Enables,
    pub constants: Constants,
}

// The three words of an entry.
#[derive(Clone, Copy)]
pub struct Entry {
    pub ctrsource: u64,
    pub ctrtarget: u64,
    pub ctrdata: u64,
}

// A retired word; a 16-bit one in the low half. Mispredicted is the flag that a record or swap has as MISP.
// Its cycles are those since the event before it; so of the other two below.
#[derive(Clone, Copy)]
pub struct RetiredWord {
    pub word: u32,
    pub pc: u64,
    pub target: u64,
    pub taken: bool,
    pub mispredicted: bool,
    pub cycles: u32,
}

// A trap to a mode.
#[derive(Clone, Copy)]
pub struct TrapTo {
    pub mode: Mode,
    pub interrupt: bool,
    pub cause: u64,
    pub epc: u64,
    pub handler: u64,
    pub cycles: u32,
}

// A trap return to a mode.
#[derive(Clone, Copy)]
pub struct ReturnTo {
    pub mode: Mode,
    pub pc: u64,
    pub target: u64,
    pub cycles: u32,
}

#[derive(Clone, Copy, PartialEq, Eq)]
pub enum Operation {
    Read,
    Write,
    Set,
    Clear,
}

// A register access by CSR number.
#[derive(Clone, Copy)]
pub struct CsrAccess {
    pub operation: Operation,
    pub number: u64,
    pub operand: u64,
}

// What happens to the machine. Sctrclr is the instruction that clears all entries; the host sets
// the CTR bits of mstateen0 and hstateen0.
#[derive(Clone, Copy)]
pub enum Event {
    Retired(RetiredWord),
    Trap(TrapTo),
    TrapReturn(ReturnTo),
    Access(CsrAccess),
    Sctrclr,
    Host(Enables),
}

// Why an event is refused, with the number of each.
#[derive(Clone, Copy, PartialEq, Eq)]
pub enum Refusal {
    IllegalInstruction = 1,
    VirtualInstruction = 2,
    NoSuchRegister = 3,
    ChangeNotPossible = 4,
    BadState = 5,
}

// Whether an event is accepted, and why not.
pub type Verdict = Result<(), Refusal>;

// What comes of a retired word, a trap or a trap return, with the value of each.
#[derive(Clone, Copy, PartialEq, Eq)]
pub enum Outcome {
    Nothing = 0,
    Record = 1,
    Pop = 2,
    Swap = 3,
    Freeze = 4,
}

// What becomes of the entries: nothing, the entry in focus is put, or all words are zeroed.
#[derive(Clone, Copy)]
pub enum Effect {
    Keep,
    Put(Entry),
    ClearAll,
}

// What an event decides, given the registers and the entry in focus.
#[derive(Clone, Copy)]
pub struct Decision {
    pub number: u64,
    pub value: u64,
    pub registers: Registers,
    pub effect: Effect,
}
