//! The bytes of a file, and the numbers in them.

/// The bytes of a file. What lies after its end reads as zero.
#[derive(Clone, Copy)]
pub struct Bytes<'f>(pub &'f [u8]);

/// How a number is written: in how many bytes, and whether the low one comes first.
#[derive(Clone, Copy)]
pub struct Form(pub usize, pub bool);

pub const LOW16: Form = Form(2, true);

pub const HIGH16: Form = Form(2, false);

pub const LOW32: Form = Form(4, true);

pub const HIGH32: Form = Form(4, false);

impl<'f> Bytes<'f> {
    /// Returns the bytes from a place on.
    pub fn from(self, at: usize) -> Bytes<'f> {
        Bytes(self.0.get(at..).unwrap_or(&[]))
    }

    /// Returns the first bytes, of which there are no more than this.
    pub fn first(self, len: usize) -> &'f [u8] {
        self.0.get(..len).unwrap_or(self.0)
    }

    pub fn byte(self, at: usize) -> u8 {
        self.0.get(at).copied().unwrap_or(0)
    }

    /// Returns the number at a place.
    pub fn number(self, at: usize, form: Form) -> usize {
        let bytes = self.from(at);
        let mut number: usize = 0;
        for index in 0..form.0 {
            let last = form.0.saturating_sub(1);
            let place = if form.1 { last - index } else { index };
            number = number << 8 | usize::from(bytes.byte(place));
        }
        number
    }

    pub fn low16(self, at: usize) -> usize {
        self.number(at, LOW16)
    }

    pub fn high16(self, at: usize) -> usize {
        self.number(at, HIGH16)
    }

    pub fn high32(self, at: usize) -> usize {
        self.number(at, HIGH32)
    }

    /// Whether these bytes stand at a place.
    pub fn has(self, at: usize, text: &[u8]) -> bool {
        self.from(at).0.starts_with(text)
    }
}

/// Writes a number at a place. Returns whether it has room there.
pub fn put_number(bytes: &mut [u8], at: usize, form: Form, number: usize) -> bool {
    let Some(place) = bytes.get_mut(at..at.saturating_add(form.0)) else {
        return false;
    };
    let mut rest = number;
    let len = place.len();
    for index in 0..len {
        let to = if form.1 { index } else { len - 1 - index };
        place[to] = (rest % 256) as u8;
        rest /= 256;
    }
    rest == 0
}
