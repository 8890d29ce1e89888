// The arguments: flags, and how each is read.
use crate::problems;
use console::{Complain, LONGEST_NAME};
use std::env::Env;
use text::is_same;

// What the arguments ask for: how the program is used, or a check of the operands from argument `first` on,
// with Zcmp and Zcmt or without them.
#[derive(Clone, Copy)]
pub(crate) enum Request {
    Usage,
    Check { zc: bool, first: usize },
}

// Argument i, in the lent buffer. One that the buffer has no room for is told.
pub(crate) fn read<'a>(
    rt: &(impl Env + Complain),
    i: usize,
    buffer: &'a mut [u8],
) -> Option<&'a [u8]> {
    match console::arg(rt, i, buffer) {
        Ok(count) => Some(text::before(buffer, count)),
        Err(error) => {
            console::fail(&mut rt.complaints(), b"check_dump: an argument", error);
            None
        }
    }
}

pub(crate) fn unexpected(rt: &(impl Env + Complain), i: usize) {
    let mut buffer = [0u8; LONGEST_NAME];
    if let Some(argument) = read(rt, i, &mut buffer) {
        problems::unexpected(rt, argument);
    }
}

// What all flags ask for, up to one that asks for usage. One that is unknown is told.
pub(crate) fn read_request(rt: &(impl Env + Complain), count: usize) -> Option<Request> {
    if count < 2 {
        return Some(Request::Usage);
    }
    let mut zc = false;
    for i in 1..count {
        let mut buffer = [0u8; LONGEST_NAME];
        let argument = read(rt, i, &mut buffer)?;
        if is_same(argument, b"--zc") {
            zc = true;
        } else if is_same(argument, b"--help") {
            return Some(Request::Usage);
        } else if argument.starts_with(b"-") {
            problems::unknown_flag(rt, argument);
            return None;
        } else {
            return Some(Request::Check { zc, first: i });
        }
    }
    Some(Request::Check { zc, first: count })
}
