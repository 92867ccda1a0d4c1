//! What the directives code: the bytes of a number, and how large it can be.

ghost use Rattle.std.specs.Prelude.{◌≡◌, ◌++◌, length, OnOk};
ghost use Rattle.stmt65.specs.Words.{entry_bytes, entry_limit};

use crate::directive::Directive;
use std::alloc::{AllocError, Allocator};

/// How many bytes a number has.
pub fn size(directive: Directive) -> u64
    ensures { result ≡ length (entry_bytes directive 0) }
{
    match directive {
        Directive::Word | Directive::Dbyt | Directive::Addr => 2,
        Directive::Dword => 4,
    }
}

/// The first number that the directive has no room for.
pub fn limit(directive: Directive) -> u64
    ensures { result ≡ entry_limit directive }
{
    match directive {
        Directive::Word | Directive::Dbyt | Directive::Addr => 0x1_0000,
        Directive::Dword => 0x1_0000_0000,
    }
}

/// Adds the bytes of a number.
pub fn put_number<A: Allocator>(
    out: &mut Vec<u8, A>,
    directive: Directive,
    number: u32,
) -> Result<(), AllocError>
    ensures { OnOk result (out.new.items ≡ out.old.items ++ entry_bytes directive number) }
{
    let low = (number % 256) as u8;
    let high = (number / 0x100 % 256) as u8;
    match directive {
        Directive::Word | Directive::Addr => out.extend_from_slice(&[low, high]),
        Directive::Dbyt => out.extend_from_slice(&[high, low]),
        Directive::Dword => out.extend_from_slice(&[
            low,
            high,
            (number / 0x1_0000 % 256) as u8,
            (number / 0x100_0000 % 256) as u8,
        ]),
    }
}
