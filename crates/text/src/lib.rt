// ASCII text on a page, which is a lent buffer. What does not fit is dropped, so no public function asks anything of its
// arguments.
#![tactic(auto)]

ghost use Rattle.std.specs.Prelude.{◌≡◌, ◌/◌, ◌%◌, ◌^◌, ◌≤◌, ◌<◌, take};
ghost use Rattle.text.specs.Page.{OneBuffer, empty, page, shown, with_byte, written};
ghost use Rattle.text.specs.Digits.{glyph, digits, number, prefix};
ghost use Rattle.text.specs.Words.{is_same};

// A lent buffer that text is written into, one byte after the other, and the place of the next one.
#[derive(Drop)]
pub struct Page<'a> {
    bytes: &'a mut [u8],
    at: usize,
}

impl<'a> Page<'a> {
    // A page on which nothing is written.
    pub fn new(bytes: &'a mut [u8]) -> Page<'a>
        ensures same_buffer { result.bytes.ghost_name ≡ bytes.entry.ghost_name }
        ensures unwritten { shown result ≡ empty bytes.old }
    {
        Page { bytes, at: 0 }
    }

    // A page that goes on from a place, whatever stands before it.
    pub fn from_place(bytes: &'a mut [u8], place: usize) -> Page<'a>
        ensures same_buffer { result.bytes.ghost_name ≡ bytes.entry.ghost_name }
        ensures there { shown result ≡ page place bytes.old }
    {
        Page { bytes, at: place }
    }

    // The place of the next byte.
    pub fn place(&self) -> usize
        ensures { result ≡ (shown self.now).at }
    {
        let Page { at, .. } = self;
        *at
    }

    // One byte.
    pub fn put_byte(&mut self, b: u8)
        ensures same_buffer { OneBuffer self.new self.old }
        ensures put { shown self.new ≡ with_byte (shown self.old) b }
    {
        self.at = byte_at(self.bytes, self.at, b);
    }

    // The bytes of s.
    pub fn put(&mut self, s: &[u8])
        ensures same_buffer { OneBuffer self.new self.old }
        ensures put { shown self.new ≡ written (shown self.old) s.now }
    {
        self.at = bytes_at(self.bytes, self.at, s);
    }

    // The last `width` digits of x in hexadecimal, in lower case, with zeros in front where x has fewer.
    pub fn put_hex(&mut self, x: u64, width: u32)
        ensures same_buffer { OneBuffer self.new self.old }
        ensures put { shown self.new ≡ written (shown self.old) (digits 16 width x) }
    {
        self.at = hex_at(self.bytes, self.at, x, width);
    }

    // n in decimal, with no zeros in front. 20 digits hold every u64.
    pub fn put_decimal(&mut self, n: u64)
        ensures same_buffer { OneBuffer self.new self.old }
        ensures put { shown self.new ≡ written (shown self.old) (number 10 20 n) }
    {
        self.at = number_at(self.bytes, self.at, n, 10, 20);
    }

    // n in hexadecimal, in lower case, with 0x and no zeros in front. 16 digits hold every u64.
    pub fn put_short_hex(&mut self, n: u64)
        ensures same_buffer { OneBuffer self.new self.old }
        ensures put { shown self.new ≡ written (written (shown self.old) prefix) (number 16 16 n) }
    {
        self.put(b"0x");
        self.at = number_at(self.bytes, self.at, n, 16, 16);
    }

    // The text so far.
    pub fn text(&self) -> &[u8]
        ensures { result.now ≡ take (shown self.now).at (shown self.now).bytes }
    {
        before(self.bytes, self.at)
    }

    // Takes the text away, for another one.
    pub fn clear(&mut self)
        ensures same_buffer { OneBuffer self.new self.old }
        ensures cleared { shown self.new ≡ empty (shown self.old).bytes }
    {
        self.at = 0;
    }
}

// One byte at a place. Each of the functions `.._at` answers the next place.
fn byte_at(bytes: &mut [u8], at: usize, b: u8) -> usize
    ensures { page result bytes.new ≡ with_byte (page at bytes.old) b }
{
    if at < bytes.len() {
        bytes[at] = b;
        at + 1
    } else {
        at
    }
}

// The bytes of s, all at once where there is room for them.
#[tactic(auto, using(crate::proofs::Pages::in_part))]
fn bytes_at(bytes: &mut [u8], at: usize, s: &[u8]) -> usize
    ensures { page result bytes.new ≡ written (page at bytes.old) s.now }
{
    if at <= bytes.len() && s.len() <= bytes.len() - at {
        let next = at + s.len();
        bytes[at..next].copy_from_slice(s);
        next
    } else {
        first_bytes_at(bytes, at, s)
    }
}

// The first bytes of s, as many as there is room for.
fn first_bytes_at(bytes: &mut [u8], at: usize, s: &[u8]) -> usize
    ensures { page result bytes.new ≡ written (page at bytes.old) s.now }
{
    let mut next = at;
    for b in s {
        next = byte_at(bytes, next, *b);
    }
    next
}

// The last `width` digits of x in hexadecimal.
fn hex_at(bytes: &mut [u8], at: usize, x: u64, width: u32) -> usize
    ensures { page result bytes.new ≡ written (page at bytes.old) (digits 16 width x) }
{
    let mut next = at;
    for k in (0..width).rev() {
        next = byte_at(bytes, next, ascii(hex_digit(x, k)));
    }
    next
}

// n in any base up to 16, with no zeros in front, of at most `most` digits.
fn number_at(bytes: &mut [u8], at: usize, n: u64, base: u64, most: u32) -> usize
    requires { (0 < base) × (base ≤ 16) }
    ensures { page result bytes.new ≡ written (page at bytes.old) (number base most n) }
{
    if most == 0 {
        return at;
    }
    if n < base {
        return byte_at(bytes, at, ascii(n));
    }
    let next = number_at(bytes, at, n / base, base, most - 1);
    byte_at(bytes, next, ascii(n % base))
}

// The bytes before a place, or all of them.
pub fn before(out: &[u8], at: usize) -> &[u8]
    ensures { result.now ≡ take at out.now }
{
    &out[..at.min(out.len())]
}

// Digit k of x in hexadecimal, counted from the right.
fn hex_digit(x: u64, k: u32) -> u64
    ensures { result ≡ x / 16 ^ k % 16 }
{
    if k < 16 {
        bits::field64(x, 4 * k, 4)
    } else {
        0
    }
}

// The ASCII code of a digit: 0 to 9, then a to f.
fn ascii(d: u64) -> u8
    requires { d < 16 }
    ensures { result ≡ glyph d }
{
    if d < 10 {
        b'0' + d as u8
    } else {
        b'a' - 10 + d as u8
    }
}

// Whether two texts are the same.
pub fn is_same(a: &[u8], b: &[u8]) -> bool
    ensures { result ≡ is_same a.now b.now }
{
    a == b
}
