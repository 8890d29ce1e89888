// Standard output by way of a page, which is written when it is nearly full.
use console::Complain;
use text::Page;

// No line but a trace's name is longer than 128 bytes, and a page of 65,536 has room for one more
// up to here.
const LAST_START: usize = 65408;

// Standard output, and the page of what is to be written to it. Once it could not be written, it is
// closed, and all further text is dropped.
#[derive(Drop)]
pub(crate) struct Output<'a, R> {
    pub rt: &'a R,
    pub page: Page<'a>,
    is_open: bool,
}

impl<'a, R: Print + Complain> Output<'a, R> {
    pub(crate) fn new(rt: &'a R, buffer: &'a mut [u8]) -> Output<'a, R> {
        Output {
            rt,
            page: Page::new(buffer),
            is_open: true,
        }
    }

    // Writes the page, and goes on with an empty one.
    pub(crate) fn flush(&mut self) {
        if self.is_open {
            if let Err(error) = self.rt.write_all(self.page.text()) {
                console::fail(&mut self.rt.complaints(), b"replay: standard output", error);
                self.is_open = false;
            }
        }
        self.page.clear();
    }

    // Ends a line, and writes the page if another one might not fit.
    pub(crate) fn end_line(&mut self) {
        self.page.put_byte(b'\n');
        if self.page.text().len() > LAST_START {
            self.flush();
        }
    }
}
