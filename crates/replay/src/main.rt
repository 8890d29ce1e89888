// Replays traces of events through the recorder, each from reset, and prints what it recorded: the
// answers if asked for, counts, the registers, the history and, if asked for, all entries; or writes
// the entries alone as a dump.
#![tactic(auto)]

mod answers;
mod output;
mod problems;
mod report;
mod runs;

use console::{BLOCK, Complain, LONGEST_NAME};
use output::Output;
use problems::Refusal;
use std::env::Env;
use std::fs::Files;
use std::io;
use std::ops::Range;
use text::is_same;

// A flag before the traces.
enum Flag {
    Answers,
    State,
    Zc,
    Dump,
    Help,
}

impl Flag {
    fn of(argument: &[u8]) -> Option<Flag> {
        if is_same(argument, b"--answers") {
            Some(Flag::Answers)
        } else if is_same(argument, b"--state") {
            Some(Flag::State)
        } else if is_same(argument, b"--zc") {
            Some(Flag::Zc)
        } else if is_same(argument, b"--dump") {
            Some(Flag::Dump)
        } else if is_same(argument, b"--help") {
            Some(Flag::Help)
        } else {
            None
        }
    }
}

// What the flags ask for.
#[derive(Clone, Copy, Default)]
struct Options {
    answers: bool,
    state: bool,
    zc: bool,
    dump: bool,
}

impl Options {
    // A dump is of one trace, and nothing is beside it.
    fn check(self, several: bool) -> Result<(), Refusal> {
        if self.dump && (self.answers || self.state) {
            Err(Refusal::DumpAndText)
        } else if self.dump && several {
            Err(Refusal::DumpOfSeveral)
        } else {
            Ok(())
        }
    }
}

// What the arguments ask for: words on how the program is used, or traces, which are arguments by number.
#[derive(Drop)]
enum Request {
    Usage,
    Replay(Options, Range<usize>),
}

// Argument i. One that is too long is read as an empty one.
fn read_argument<'a>(rt: &impl Env, i: usize, buffer: &'a mut [u8]) -> &'a [u8] {
    let length = console::arg(rt, i, buffer).unwrap_or(0);
    text::before(buffer, length)
}

// The first argument that begins with no dash ends the flags.
fn read_request(rt: &impl Env, count: usize) -> Result<Request, Refusal> {
    let mut options = Options::default();
    for i in 1..count {
        let mut buffer = [0u8; LONGEST_NAME];
        let argument = read_argument(rt, i, &mut buffer);
        if !argument.starts_with(b"-") {
            options.check(count - i > 1)?;
            return Ok(Request::Replay(options, i..count));
        }
        match Flag::of(argument).ok_or(Refusal::UnknownFlag(i))? {
            Flag::Answers => options.answers = true,
            Flag::State => options.state = true,
            Flag::Zc => options.zc = true,
            Flag::Dump => options.dump = true,
            Flag::Help => return Ok(Request::Usage),
        }
    }
    if count < 2 {
        Ok(Request::Usage)
    } else {
        Err(Refusal::NoTrace)
    }
}

fn print_usage(rt: &impl Print) {
    console::write(
        &mut io::writer(rt),
        b"usage: replay [--answers] [--state] [--zc] TRACE...\n       replay --dump [--zc] TRACE\nReplays traces of events through the recorder, each from reset, and prints what it recorded.\n  --answers  first the answer to each event: its number, and its value in hex\n  --state    last all physical entries: index, ctrsource, ctrtarget and ctrdata\n  --zc       from a reset with table jumps and pop-returns (Zcmt and Zcmp) switched on\n  --dump     the entries alone, as check_dump takes them: ctrsource, ctrtarget and ctrdata of each up to the depth, newest first\nA trace is a file of little-endian 64-bit words, four to an event.\n",
    );
}

// Argument i as a trace, with its name if it is one of several.
fn run_argument<R: Files + Env + Print + Complain>(
    out: &mut Output<'_, R>,
    i: usize,
    o: Options,
    several: bool,
) {
    let mut buffer = [0u8; LONGEST_NAME];
    match console::arg(out.rt, i, &mut buffer) {
        Ok(length) => runs::replay(out, text::before(&buffer, length), o, several),
        Err(error) => {
            console::fail(&mut out.rt.complaints(), b"replay: a trace's name", error);
        }
    }
}

fn run_traces<R: Files + Env + Print + Complain>(rt: &R, traces: Range<usize>, o: Options) {
    let mut buffer = [0u8; BLOCK];
    let mut out = Output::new(rt, &mut buffer);
    let several = traces.len() > 1;
    for i in traces {
        run_argument(&mut out, i, o, several);
    }
    out.flush();
}

fn main(rt: HostRuntime) {
    let count = console::arg_count(&rt);
    match read_request(&rt, count) {
        Ok(Request::Usage) => print_usage(&rt),
        Ok(Request::Replay(options, traces)) => run_traces(&rt, traces, options),
        Err(refusal) => problems::refuse(&rt, refusal),
    }
}
