// Which mode changes are possible.
ghost use Rattle.std.specs.Prelude.{◌≡◌};
ghost use Rattle.qualifying.specs.Changes.{possible_trap, possible_return, possible_cause};

use machine::Mode;
use machine::modes::is_virtual;

pub fn possible_trap(source: Mode, target: Mode) -> bool
    ensures { result ≡ possible_trap source target }
{
    match target {
        Mode::M => true,
        Mode::S => source != Mode::M,
        Mode::VS => is_virtual(source),
        Mode::U | Mode::VU => false,
    }
}

// A return goes the way that a trap could have come.
pub fn possible_return(source: Mode, target: Mode) -> bool
    ensures { result ≡ possible_return source target }
{
    possible_trap(target, source)
}

// Causes from 64 up are of corrupt traces. No rule asks this yet.
pub fn possible_cause(cause: u64) -> bool
    ensures { result ≡ possible_cause cause }
{
    cause < 64
}
