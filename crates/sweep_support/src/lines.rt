// Lines of a name and a number, put on a page.
ghost use Rattle.std.specs.Prelude.{◌≡◌, length};
ghost use Rattle.text.specs.Page.{OneBuffer, shown};
ghost use Rattle.sweep_support.specs.Lines.{word_line, count_line, numbered_line, numbered_lines, number_lines, cell, row_line};

use text::Page;

// A name, and a word in hexadecimal.
#[tactic(auto, unfolding(crate::specs::Lines::word_line))]
pub fn put_word(page: &mut Page, name: &[u8], w: u64)
    ensures same_buffer { OneBuffer page.new page.old }
    ensures put { shown page.new ≡ word_line (shown page.old) name.now w }
{
    page.put(name);
    page.put_hex(w, 16);
    page.put_byte(b'\n');
}

// A name, and a count in decimal.
#[tactic(auto, unfolding(crate::specs::Lines::count_line))]
pub fn put_count(page: &mut Page, name: &[u8], count: u64)
    ensures same_buffer { OneBuffer page.new page.old }
    ensures put { shown page.new ≡ count_line (shown page.old) name.now count }
{
    page.put(name);
    page.put_decimal(count);
    page.put_byte(b'\n');
}

// A name with a number, and a count.
#[tactic(auto, unfolding(crate::specs::Lines::numbered_line))]
pub fn put_numbered(page: &mut Page, name: &[u8], k: u64, count: u64)
    ensures same_buffer { OneBuffer page.new page.old }
    ensures put { shown page.new ≡ numbered_line (shown page.old) name.now k count }
{
    page.put(name);
    page.put_decimal(k);
    put_count(page, b" ", count);
}

// Such a line for each count, numbered from 0.
pub fn put_counts(page: &mut Page, name: &[u8], counts: &[u64])
    ensures same_buffer { OneBuffer page.new page.old }
    ensures put { shown page.new ≡ numbered_lines (shown page.old) name.now counts.now (length counts.now) }
{
    for (k, count) in counts.iter().enumerate() {
        put_numbered(page, name, k as u64, *count);
    }
}

// How often each number was answered: those from 0 up, then 8.
#[tactic(auto, unfolding(crate::specs::Lines::number_lines))]
pub fn put_numbers(page: &mut Page, name: &[u8], counts: &[u64], eights: u64)
    ensures same_buffer { OneBuffer page.new page.old }
    ensures put { shown page.new ≡ number_lines (shown page.old) name.now counts.now eights }
{
    put_counts(page, name, counts);
    put_numbered(page, name, 8, eights);
}

// A count behind a space.
#[tactic(auto, unfolding(crate::specs::Lines::cell))]
fn put_cell(page: &mut Page, count: u64)
    ensures same_buffer { OneBuffer page.new page.old }
    ensures put { shown page.new ≡ cell (shown page.old) count }
{
    page.put_byte(b' ');
    page.put_decimal(count);
}

// Counts in a row, each behind a space.
pub fn put_row(page: &mut Page, counts: &[u64])
    ensures same_buffer { OneBuffer page.new page.old }
    ensures put { shown page.new ≡ row_line (shown page.old) counts.now }
{
    for count in counts {
        put_cell(page, *count);
    }
    page.put_byte(b'\n');
}
