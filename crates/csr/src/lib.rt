// CSR numbers and the access steps: which register a number reaches, and why an access is refused (docs/RULES.md, R).
#![tactic(auto)]

pub mod numbers;
pub mod steps;

// Whose register it is: mctrctl is the machine's, sctrctl the supervisor's, vsctrctl the guest's.
#[derive(Clone, Copy, PartialEq, Eq)]
pub enum View {
    Machine,
    Supervisor,
    Guest,
}

// What a CSR number reaches: the control register, the select register or an entry register of a
// view, the last with the index of an entry word; or sctrdepth, or sctrstatus.
#[derive(Clone, Copy)]
pub enum Csr {
    Control(View),
    Select(View),
    Ireg(View, u64),
    Depth,
    Status,
    Unlisted,
}

// What the access steps ask of a register or of SCTRCLR.
#[derive(Clone, Copy, Default)]
pub struct Facts {
    pub unlisted: bool,
    // a register of M alone
    pub machine: bool,
    // a register that VS may not reach
    pub barred: bool,
    // the state enables gate it
    pub gated: bool,
    // an ireg whose selection is outside the window
    pub outside: bool,
}
