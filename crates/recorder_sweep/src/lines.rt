// Lines of counts.
use sweep_support::lines::put_row;
use text::Page;

// A name, and counts behind it.
pub(crate) fn put_named_row(page: &mut Page, name: &[u8], counts: &[u64]) {
    page.put(name);
    put_row(page, counts);
}
