// A row: word 0 has the kind in bits 7..0 and flags above, words 1 to 3 the event's numbers.
ghost use Rattle.std.specs.Prelude.{◌≡◌, ◌%◌, ◌^◌, true, ltb};
ghost use Rattle.bits.specs.Words.{field_at};
ghost use Rattle.trace.specs.Codes.{mode_of, operation_of};
ghost use Rattle.trace.specs.Rows.{cycles_in, head_in, has_mode, is_retired_row, retired_in, retired_row, is_trap_row, trap_in, trap_row, is_return_row, return_in, return_row, is_access_row, access_in, access_row, are_zeros, first_set, is_plain_row, plain_row, sctrclr_row, enables_in, host_row, row_of};

use crate::Malformed;
use crate::codes::{mode_of, operation_of};
use machine::{CsrAccess, Enables, Event, Mode, Operation, RetiredWord, ReturnTo, TrapTo};

// Word 0 of each kind is below a limit, but for the cycles that three of them have in bits 63..32: no bit is
// set that the kind does not name.
pub(crate) const RETIRED_LIMIT: u64 = 0x400;

const TRAP_LIMIT: u64 = 0x1000;

const RETURN_LIMIT: u64 = 0x800;

const ACCESS_LIMIT: u64 = 0x400;

pub(crate) const SCTRCLR_LIMIT: u64 = 0x100;

pub(crate) const HOST_LIMIT: u64 = 0x400;

// The four words of a row.
#[derive(Clone, Copy)]
pub(crate) struct Words {
    pub(crate) zero: u64,
    pub(crate) one: u64,
    pub(crate) two: u64,
    pub(crate) three: u64,
}

impl Words {
    // The number of the row's kind.
    pub(crate) fn kind(self) -> u64
        ensures { result ≡ self.zero % 2 ^ 8 }
    {
        bits::low(self.zero, 8)
    }

    // Whether the low half of word 0 is below a limit.
    pub(crate) fn head_below(self, limit: u64) -> bool
        ensures { result ≡ ltb (head_in self.zero) limit }
    {
        bits::low(self.zero, 32) < limit
    }

    fn cycles(self) -> u32
        ensures { result ≡ cycles_in self.zero }
    {
        (self.zero >> 32) as u32
    }

    // Whether word 0 has a mode, and below the cycles no bit set from a limit up.
    #[tactic(auto, unfolding(crate::specs::Rows::has_mode))]
    fn has_mode(self, limit: u64) -> bool
        ensures { result ≡ has_mode self.zero limit }
    {
        self.head_below(limit) && bits::field64(self.zero, 8, 3) < 5
    }

    fn mode(self) -> Mode
        ensures { result ≡ mode_of (field_at self.zero 8 3) }
    {
        mode_of(bits::field64(self.zero, 8, 3))
    }

    fn operation(self) -> Operation
        ensures { result ≡ operation_of (field_at self.zero 8 2) }
    {
        operation_of(bits::field64(self.zero, 8, 2))
    }

    // A retired word; taken in bit 8 of word 0, mispredicted in bit 9.
    #[tactic(auto, unfolding(crate::specs::Rows::is_retired_row))]
    pub(crate) fn is_retired_row(self) -> bool
        ensures { result ≡ is_retired_row self.zero self.one }
    {
        self.head_below(RETIRED_LIMIT) && self.one < 0x1_0000_0000
    }

    pub(crate) fn retired(self) -> RetiredWord
        requires { is_retired_row self.zero self.one ≡ true }
        ensures { result ≡ retired_in self.zero self.one self.two self.three }
    {
        RetiredWord {
            word: self.one as u32,
            pc: self.two,
            target: self.three,
            taken: bits::bit(self.zero, 8),
            mispredicted: bits::bit(self.zero, 9),
            cycles: self.cycles(),
        }
    }

    #[tactic(auto, unfolding(crate::specs::Rows::retired_row))]
    fn retired_row(self) -> Result<Event, Malformed>
        ensures { result ≡ retired_row self.zero self.one self.two self.three }
    {
        if self.is_retired_row() {
            Ok(Event::Retired(self.retired()))
        } else if self.head_below(RETIRED_LIMIT) {
            Err(Malformed::Word1)
        } else {
            Err(Malformed::Word0)
        }
    }

    // A trap; target mode in bits 10..8 and interrupt in bit 11.
    #[tactic(auto, unfolding(crate::specs::Rows::is_trap_row))]
    pub(crate) fn is_trap_row(self) -> bool
        ensures { result ≡ is_trap_row self.zero }
    {
        self.has_mode(TRAP_LIMIT)
    }

    pub(crate) fn trap(self) -> TrapTo
        ensures { result ≡ trap_in self.zero self.one self.two self.three }
    {
        TrapTo {
            mode: self.mode(),
            interrupt: bits::bit(self.zero, 11),
            cause: self.one,
            epc: self.two,
            handler: self.three,
            cycles: self.cycles(),
        }
    }

    #[tactic(auto, unfolding(crate::specs::Rows::trap_row))]
    fn trap_row(self) -> Result<Event, Malformed>
        ensures { result ≡ trap_row self.zero self.one self.two self.three }
    {
        if self.is_trap_row() {
            Ok(Event::Trap(self.trap()))
        } else {
            Err(Malformed::Word0)
        }
    }

    // A trap return; target mode in bits 10..8.
    #[tactic(auto, unfolding(crate::specs::Rows::is_return_row))]
    pub(crate) fn is_return_row(self) -> bool
        ensures { result ≡ is_return_row self.zero self.one }
    {
        self.has_mode(RETURN_LIMIT) && self.one == 0
    }

    pub(crate) fn trap_return(self) -> ReturnTo
        ensures { result ≡ return_in self.zero self.two self.three }
    {
        ReturnTo {
            mode: self.mode(),
            pc: self.two,
            target: self.three,
            cycles: self.cycles(),
        }
    }

    #[tactic(auto, unfolding(crate::specs::Rows::return_row))]
    fn return_row(self) -> Result<Event, Malformed>
        ensures { result ≡ return_row self.zero self.one self.two self.three }
    {
        if self.is_return_row() {
            Ok(Event::TrapReturn(self.trap_return()))
        } else if self.has_mode(RETURN_LIMIT) {
            Err(Malformed::Word1)
        } else {
            Err(Malformed::Word0)
        }
    }

    // A register access; operation in bits 9..8, and in word 1 the number of a CSR.
    fn is_csr(self) -> bool
        ensures { result ≡ ltb self.one 4096 }
    {
        self.one < 0x1000
    }

    #[tactic(auto, unfolding(crate::specs::Rows::is_access_row))]
    pub(crate) fn is_access_row(self) -> bool
        ensures { result ≡ is_access_row self.zero self.one self.three }
    {
        self.zero < ACCESS_LIMIT && self.is_csr() && self.three == 0
    }

    pub(crate) fn access(self) -> CsrAccess
        ensures { result ≡ access_in self.zero self.one self.two }
    {
        CsrAccess {
            operation: self.operation(),
            number: self.one,
            operand: self.two,
        }
    }

    #[tactic(auto, unfolding(crate::specs::Rows::access_row))]
    fn access_row(self) -> Result<Event, Malformed>
        ensures { result ≡ access_row self.zero self.one self.two self.three }
    {
        if self.is_access_row() {
            Ok(Event::Access(self.access()))
        } else if self.zero >= ACCESS_LIMIT {
            Err(Malformed::Word0)
        } else if self.is_csr() {
            Err(Malformed::Word3)
        } else {
            Err(Malformed::Word1)
        }
    }

    // Whether words 1 to 3 are all zero.
    #[tactic(auto, unfolding(crate::specs::Rows::are_zeros))]
    fn are_zeros(self) -> bool
        ensures { result ≡ are_zeros self.one self.two self.three }
    {
        self.one == 0 && self.two == 0 && self.three == 0
    }

    // The first of words 1 to 3 that is not zero.
    #[tactic(auto, unfolding(crate::specs::Rows::first_set))]
    fn first_set(self) -> Malformed
        ensures { result ≡ first_set self.one self.two }
    {
        if self.one != 0 {
            Malformed::Word1
        } else if self.two != 0 {
            Malformed::Word2
        } else {
            Malformed::Word3
        }
    }

    // An event that has no words but word 0.
    #[tactic(auto, unfolding(crate::specs::Rows::is_plain_row))]
    pub(crate) fn is_plain_row(self, limit: u64) -> bool
        ensures { result ≡ is_plain_row limit self.zero self.one self.two self.three }
    {
        self.zero < limit && self.are_zeros()
    }

    #[tactic(auto, unfolding(crate::specs::Rows::plain_row))]
    fn plain_row(self, limit: u64, e: Event) -> Result<Event, Malformed>
        ensures { result ≡ plain_row limit self.zero self.one self.two self.three e }
    {
        if self.is_plain_row(limit) {
            Ok(e)
        } else if self.zero < limit {
            Err(self.first_set())
        } else {
            Err(Malformed::Word0)
        }
    }

    fn sctrclr_row(self) -> Result<Event, Malformed>
        ensures { result ≡ sctrclr_row self.zero self.one self.two self.three }
    {
        self.plain_row(SCTRCLR_LIMIT, Event::Sctrclr)
    }

    // The host's event; mstateen0.CTR in bit 8 and hstateen0.CTR in bit 9.
    pub(crate) fn enables(self) -> Enables
        ensures { result ≡ enables_in self.zero }
    {
        Enables {
            mstateen0: bits::bit(self.zero, 8),
            hstateen0: bits::bit(self.zero, 9),
        }
    }

    fn host_row(self) -> Result<Event, Malformed>
        ensures { result ≡ host_row self.zero self.one self.two self.three }
    {
        self.plain_row(HOST_LIMIT, Event::Host(self.enables()))
    }

    // A row by its kind.
    #[tactic(auto, unfolding(crate::specs::Rows::row_by, crate::specs::Rows::row_of))]
    fn row(self) -> Result<Event, Malformed>
        ensures { result ≡ row_of self.zero self.one self.two self.three }
    {
        match self.kind() {
            0 => self.retired_row(),
            1 => self.trap_row(),
            2 => self.return_row(),
            3 => self.access_row(),
            4 => self.sctrclr_row(),
            5 => self.host_row(),
            _ => Err(Malformed::Word0),
        }
    }
}

// The event of four words, or the first of them that breaks a rule of the format.
pub fn decode(w: u64, a: u64, b: u64, c: u64) -> Result<Event, Malformed>
    ensures { result ≡ row_of w a b c }
{
    let words = Words {
        zero: w,
        one: a,
        two: b,
        three: c,
    };
    words.row()
}
