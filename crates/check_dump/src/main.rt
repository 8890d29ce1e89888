// Checks a dump of entries against firmware and prints a line: that it is accepted, why it is refused, or
// the first entry that does not fit, and why.
#![tactic(auto)]

mod arguments;
mod bases;
mod checks;
mod files;
mod problems;
mod report;

use arguments::{Request, unexpected};
use checks::Operands;
use console::Complain;
use std::env::Env;
use std::fs::Files;
use std::io;

fn print_usage(rt: &impl Print) {
    console::write(
        &mut io::writer(rt),
        b"usage: check_dump [--zc] IMAGE BASE DUMP\nChecks a dump of entries against firmware: accepted if every valid entry fits, else the first that does not, and why.\n  --zc  with table jumps and pop-returns (Zcmt and Zcmp) switched on\nIMAGE is a file of code, at most 4194304 bytes, and BASE the address of its first byte, in hex with 0x or in decimal. DUMP is a file of little-endian 64-bit words, ctrsource, ctrtarget and ctrdata of each entry, newest first, at most 4096 entries.\n",
    );
}

// What the operands ask for, the arguments from the first on that is no flag.
fn run(rt: &(impl Files + Env + Print + Complain), first: usize, count: usize, zc: bool) {
    match count.saturating_sub(first) {
        0 => problems::missing(rt, b"image"),
        1 => problems::missing(rt, b"base"),
        2 => problems::missing(rt, b"dump"),
        3 => {
            let operands = Operands {
                image: first,
                base: first + 1,
                dump: first + 2,
                zc,
            };
            operands.check(rt);
        }
        _ => unexpected(rt, first + 3),
    }
}

fn main(rt: HostRuntime) {
    let count = console::arg_count(&rt);
    match arguments::read_request(&rt, count) {
        Some(Request::Usage) => print_usage(&rt),
        Some(Request::Check { zc, first }) => run(&rt, first, count, zc),
        None => (),
    }
}
