// Whole files, each in a buffer as large as one may be.
use crate::problems;
use console::Complain;
use std::fs::Files;
use std::io::Read;

// Whether a file has ended after so many bytes, the most that it may have. If not, or if a read fails,
// that is told.
fn has_ended(rt: &impl Complain, file: &mut impl Read, name: &[u8], most: usize) -> bool {
    let mut further = [0u8; 1];
    match file.read(&mut further) {
        Ok(0) => true,
        Ok(_) => {
            problems::too_large(rt, name, most as u64);
            false
        }
        Err(error) => {
            problems::unreadable(rt, name, error);
            false
        }
    }
}

// How many bytes an open file has, put into the buffer. What is wrong with it is told.
fn read_open(
    rt: &impl Complain,
    file: &mut impl Read,
    name: &[u8],
    buffer: &mut [u8],
) -> Option<usize> {
    let block = console::fill(file, buffer);
    let most = buffer.len();
    if let Some(error) = block.error {
        problems::unreadable(rt, name, error);
        return None;
    }
    if block.count < most || has_ended(rt, file, name, most) {
        Some(block.count)
    } else {
        None
    }
}

// The bytes of a file by its name, in the lent buffer. What is wrong with it is told.
pub(crate) fn read<'a>(
    rt: &(impl Files + Complain),
    name: &[u8],
    buffer: &'a mut [u8],
) -> Option<&'a [u8]> {
    match console::open(rt, name) {
        Ok(mut file) => {
            let count = read_open(rt, &mut file, name, buffer)?;
            Some(text::before(buffer, count))
        }
        Err(error) => {
            problems::unreadable(rt, name, error);
            None
        }
    }
}
