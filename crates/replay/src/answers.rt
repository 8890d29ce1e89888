// The answers to the rows of a block: they are counted and, if asked for, put on the page.
use crate::output::Output;
use console::Complain;
use machine::answers;
use machine::answers::{number_index, value_index};

// The places for the numbers that there are and for the values, each with one for all others.
pub(crate) const NUMBERS: usize = answers::NUMBERS as usize + 1;

pub(crate) const VALUES: usize = answers::VALUES as usize + 1;

// How often each number was answered, and how often each value, where it tells what was recorded.
#[derive(Default, Drop)]
pub(crate) struct Counts {
    pub numbers: [u64; NUMBERS],
    pub values: [u64; VALUES],
}

// Whether the value answered tells what was recorded: of retired words, traps and trap returns, by the
// kind in word 0 of the row.
fn is_transfer(head: u64) -> bool {
    bits::low(head, 8) < 3
}

fn add_one(count: &mut u64) {
    *count = count.wrapping_add(1);
}

impl Counts {
    // An answer to a row: of number 0 the value too, where it tells what was recorded.
    fn count(&mut self, head: u64, answer: [u64; 2]) {
        match answer {
            [0, value] => {
                add_one(&mut self.numbers[0]);
                if is_transfer(head) {
                    add_one(&mut self.values[value_index(value) as usize]);
                }
            }
            [number, _] => add_one(&mut self.numbers[number_index(number) as usize]),
        }
    }

    // The answers to rows.
    pub(crate) fn count_all(&mut self, rows: &[[u64; 4]], answers: &[[u64; 2]]) {
        for (row, answer) in rows.iter().zip(answers) {
            self.count(row[0], *answer);
        }
    }
}

pub(crate) fn put_answers<R: Print + Complain>(out: &mut Output<'_, R>, answers: &[[u64; 2]]) {
    for answer in answers {
        let [number, value] = *answer;
        out.page.put_decimal(number);
        out.page.put_byte(b' ');
        out.page.put_short_hex(value);
        out.end_line();
    }
}
