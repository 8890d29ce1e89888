// Start states that are made bad.
use machine::Registers;
use machine::depths::depth;
use recorder::State;

// Good registers made bad, in one of the five ways there are.
fn made_bad(mut r: Registers, way: usize) -> Registers {
    match way % 5 {
        0 => r.buffer.code = 5,
        1 => r.buffer.wrptr = depth(r.buffer.code),
        2 => r.controls.mctrctl |= 0x8000_0000_0000_0000,
        3 => r.controls.vsctrctl |= 4,
        _ => r.cycles.counter = 0x800_0000,
    }
    r
}

// A state, or that state made bad.
pub(crate) fn start(mut s: State, bad: bool, way: usize) -> State {
    if bad {
        s.registers = made_bad(s.registers, way);
    }
    s
}
