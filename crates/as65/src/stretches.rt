//! Where two rows of bytes differ.

ghost use Rattle.std.specs.Prelude.{◌≡◌, ◌<◌, ◌≤◌, ℕ, IfNone, IfSome, false, length, not, true};
ghost use Rattle.as65.specs.Words.{differs};

/// Bytes that differ, from an offset up to before another.
#[derive(Clone, Copy)]
pub struct Stretch {
    pub at: usize,
    pub end: usize,
}

impl Stretch {
    /// One byte.
    pub fn of_byte(at: usize) -> Stretch {
        let end = at.saturating_add(1);
        Stretch { at, end }
    }

    /// How many bytes it has.
    pub fn len(self) -> usize {
        self.end.saturating_sub(self.at)
    }

    /// Its bytes, if these go so far.
    pub fn of(self, bytes: &[u8]) -> &[u8] {
        bytes.get(self.at..self.end).unwrap_or(&[])
    }

    /// Whether it has no byte outside of another.
    pub fn is_within(self, whole: Stretch) -> bool {
        whole.at <= self.at && self.end <= whole.end
    }

    /// Its first bytes, at most this many, and the rest.
    pub fn halves(self, len: usize) -> [Stretch; 2] {
        let middle = self.at.saturating_add(len.min(self.len()));
        let (first, rest) = (
            Stretch {
                end: middle,
                ..self
            },
            Stretch { at: middle, ..self },
        );
        [first, rest]
    }
}

/// The first offset from this one on where the bytes differ, or where they don't; else the end of the shorter row.
fn first_where(one: &[u8], other: &[u8], from: usize, differ: bool) -> usize
    requires one { from ≤ length one.now }
    requires other { from ≤ length other.now }
    ensures low { from ≤ result }
    ensures one { result ≤ length one.now }
    ensures other { result ≤ length other.now }
    ensures before { (i : ℕ) → from ≤ i → i < result → differs one.now other.now i ≡ not differ }
    ensures here { result < length one.now → result < length other.now → differs one.now other.now result ≡ differ }
{
    let common = one.len().min(other.len());
    'bytes: for at in from..common {
        if (one[at] != other[at]) == differ {
            return at;
        }
    }
    common
}

/// The first stretch of bytes that differ from an offset on, as long as it can be.
pub fn next_stretch(one: &[u8], other: &[u8], from: usize) -> Option<Stretch>
    requires one { from ≤ length one.now }
    requires other { from ≤ length other.now }
    /// Returns the first stretch of bytes that differ from an offset on, as long as it can be; none if no byte
    /// differs from there on.
    ensures low { IfSome result (λ s. from ≤ s.at) }
    ensures before { IfSome result (λ s.
        (i : ℕ) → from ≤ i → i < s.at → differs one.now other.now i ≡ false) }
    ensures some { IfSome result (λ s. s.at < s.end) }
    ensures inside { IfSome result (λ s.
        (i : ℕ) → s.at ≤ i → i < s.end → differs one.now other.now i ≡ true) }
    ensures after { IfSome result (λ s. differs one.now other.now s.end ≡ false) }
    ensures one { IfSome result (λ s. s.end ≤ length one.now) }
    ensures other { IfSome result (λ s. s.end ≤ length other.now) }
    ensures none { IfNone result ((i : ℕ) → from ≤ i → differs one.now other.now i ≡ false) }
{
    let at = first_where(one, other, from, true);
    let end = first_where(one, other, at, false);
    if at < end {
        Some(Stretch { at, end })
    } else {
        None
    }
}
