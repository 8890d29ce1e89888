// One of several lines, and the line of an entry of a history.
#![tactic(auto)]

ghost use Rattle.std.specs.Prelude.{◌≡◌};
ghost use Rattle.text.specs.Page.{OneBuffer, shown, written};
ghost use Rattle.history.specs.Lines.{line_from, type_names, path_line};

use text::Page;

// What ends a line.
const NEWLINE: u8 = b'\n';

// Line n of some lines, counted from 0.
pub fn put_line(page: &mut Page, lines: &[u8], n: u64)
    ensures same_buffer { OneBuffer page.new page.old }
    ensures put { shown page.new ≡ written (shown page.old) (line_from 0 n lines.now) }
{
    let mut line = 0;
    for b in lines {
        if *b == NEWLINE {
            line += 1;
        } else if line == n {
            page.put_byte(*b);
        }
    }
}

// The name of a transfer type, by its number.
fn put_type(page: &mut Page, number: u64)
    ensures same_buffer { OneBuffer page.new page.old }
    ensures put { shown page.new ≡ written (shown page.old) (line_from 0 number type_names) }
{
    put_line(
        page,
        b"none\nexception\ninterrupt\ntrap return\nbranch not taken\nbranch taken\nreserved\nreserved\nindirect call\ndirect call\nindirect jump\ndirect jump\nco-routine swap\nfunction return\nother indirect jump\nother direct jump",
        number,
    );
}

// An entry of a history without its count: source, target and type, of its three words.
#[tactic(auto, unfolding(crate::specs::Lines::path_line))]
pub fn put_path(page: &mut Page, ctrsource: u64, ctrtarget: u64, ctrdata: u64)
    ensures same_buffer { OneBuffer page.new page.old }
    ensures put { shown page.new ≡ path_line (shown page.old) ctrsource ctrtarget ctrdata }
{
    page.put_short_hex(bits::clear_bit0(ctrsource));
    page.put(b" -> ");
    page.put_short_hex(bits::clear_bit0(ctrtarget));
    page.put_byte(b' ');
    put_type(page, bits::low(ctrdata, 4));
}
