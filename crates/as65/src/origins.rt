//! Which line of a listing gave a byte.

ghost use Rattle.std.specs.Prelude.{◌≡◌, ◌≤◌, List, ℕ};
ghost use Rattle.text65.specs.Lines.{text_lines};
ghost use Rattle.as65.specs.Words.{IsReached, ended};

use files65::{after_lines, first_of, trimmed};

/// The line that a pass over a text has reached.
#[derive(Clone, Copy)]
pub struct Reached<'a> {
    /// How many lines are above it.
    pub above: usize,
    /// The line without the blanks around it. It is kept, since many stretches may lie in one long line.
    pub line: &'a [u8],
    /// The text from it on.
    pub rest: &'a [u8],
}

/// How many addresses come before the first that is greater than this one.
#[tactic(auto, unfolding(crate::specs::Code::ended))]
fn count_up_to(addresses: &[u64], address: u64) -> usize
    ensures { result ≡ ended address addresses.now }
{
    addresses.iter().take_while(|a| **a <= address).count()
}

impl<'a> Reached<'a> {
    /// The first line of a text.
    pub fn first(text: &'a [u8]) -> Reached<'a>
        ensures above { result.above ≡ 0 }
        ensures reached { IsReached (text_lines text.entry.now) result }
    {
        Reached {
            above: 0,
            line: trimmed(first_of(text)),
            rest: text,
        }
    }

    /// The line that gave the byte at this address, by the address after each line; it may not be above this one.
    #[tactic(auto, using(crate::proofs::PassingLemmas::passing))]
    pub fn of_byte(self, ends: &[u64], address: u64) -> Reached<'a>
        requires { self.above ≤ ended address ends.now }
        /// Returns the first line after which the address is greater than that of the byte. That this line gives the
        /// byte is the law `FindsLine` of `stmt65`.
        ensures above { result.above ≡ ended address ends.now }
        ensures reached { (lines : List (List ℕ)) → IsReached lines self.entry → IsReached lines result }
    {
        let (_, left) = ends.split_at(self.above);
        let count = count_up_to(left, address);
        if count == 0 {
            return self;
        }
        let rest = after_lines(self.rest, count);
        Reached {
            above: self.above + count,
            line: trimmed(first_of(rest)),
            rest,
        }
    }
}
