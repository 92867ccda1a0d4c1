//! The value and size of an expression.

ghost use Rattle.std.specs.Prelude.{◌≡◌, ◌≤◌, ◌+◌, Some};
ghost use Rattle.stmt65.specs.Words.{address_of, apart, below, capped, definition_of, entry_in, entry_limit, has_zero_page_size, is_known, is_small, lowered, numeral_of, value_in, value_of, word_in};

use crate::assembling::entries::limit;
use crate::assembling::symbols::{Definition, KnownNames, LineNames};
use crate::directive::Directive;
use crate::reading::numeral::Numeral;
use crate::source_line::{Minus, Value};
use std::alloc::Allocator;

/// The value, or `None` if it is below 0 or the name is undefined. A number of the expression that
/// is greater than 2^64 - 1 counts as that.
#[tactic(auto, unfolding(crate::specs::Symbols::value_in))]
fn value_in<A: Allocator + Clone>(names: &LineNames<'_, '_, '_, A>, value: &Value) -> Option<u128>
    ensures { capped result ≡ capped (value_in names.now (value_of value.now)) }
{
    match *value {
        Value::Number(n) => Some(u128::from(n.value())),
        Value::Sum(n, m) => Some(u128::from(n.value().saturating_add(m.value()))),
        Value::Name(name, n, minus) => {
            let definition = names.find(name)?;
            value_from(definition, n, minus)
        }
        Value::Less(name, n) => {
            let definition = names.find(name)?;
            lessened(definition, n.value())
        }
        Value::Difference(name, other) => {
            let base = names.find(other)?.address()?;
            lessened(names.find(name)?, u64::from(base))
        }
    }
}

/// The address of a name with this definition, less a number; `None` if that is below 0 or the name has no address.
fn lessened(definition: Definition, n: u64) -> Option<u128>
    ensures { result ≡ apart (address_of (Some (definition_of definition.entry))) (Some n) }
{
    let difference = u64::from(definition.address()?).checked_sub(n)?;
    Some(u128::from(difference))
}

/// The value of a name with this definition, and of what is added to it.
fn value_from(definition: Definition, n: Numeral, minus: Minus) -> Option<u128>
    ensures { capped result ≡ capped (lowered minus (definition.entry.value + numeral_of n.entry)) }
{
    lowered(minus, u128::from(definition.value) + u128::from(n.value()))
}

/// The difference, or `None` if it is below 0.
fn lowered(minus: Minus, n: u128) -> Option<u128>
    ensures { result ≡ lowered minus n }
{
    match minus {
        Minus::Zero => Some(n),
        Minus::One => n.checked_sub(1),
    }
}

/// Whether each name in the expression has a definition.
#[tactic(auto, unfolding(crate::specs::Symbols::is_known))]
pub fn is_known<A: Allocator + Clone>(names: &LineNames<'_, '_, '_, A>, value: &Value) -> bool
    ensures { result ≡ is_known names.now (value_of value.now) }
{
    match *value {
        Value::Number(_) | Value::Sum(_, _) => true,
        Value::Name(name, _, _) | Value::Less(name, _) => names.find(name).is_some(),
        Value::Difference(name, other) => {
            names.find(name).is_some() && names.find(other).is_some()
        }
    }
}

/// The value if it is below a limit.
fn below(limit: u64, value: Option<u128>) -> Option<u32>
    requires { limit ≤ 4294967296 }
    ensures { result ≡ below limit value }
{
    let value = value?;
    if value < u128::from(limit) {
        Some(value as u32)
    } else {
        None
    }
}

/// The value if it is from 0 to $FFFF.
#[tactic(auto, using(crate::proofs::NameLemmas::below_capped), unfolding(crate::specs::Symbols::word_in))]
pub fn word_in<A: Allocator + Clone>(names: &LineNames<'_, '_, '_, A>, value: &Value) -> Option<u16>
    ensures { result ≡ word_in names.now (value_of value.now) }
{
    let word = below(0x1_0000, value_in(names, value))?;
    Some(word as u16)
}

/// The value if an entry of the directive has room for it.
#[tactic(auto, using(crate::proofs::NameLemmas::entry_capped), unfolding(crate::specs::Coding::entry_in))]
pub fn entry_in<A: Allocator + Clone>(
    names: &LineNames<'_, '_, '_, A>,
    directive: Directive,
    value: &Value,
) -> Option<u32>
    ensures { result ≡ entry_in names.now directive (value_of value.now) }
{
    below(limit(directive), value_in(names, value))
}

/// Whether the value is below $100, and a name in it is defined as `name := number`.
#[tactic(auto, using(crate::proofs::NameLemmas::small_capped), unfolding(crate::specs::Symbols::has_zero_page_size, crate::specs::Symbols::value_in))]
pub fn has_zero_page_size<A: Allocator + Clone>(
    above: &KnownNames<'_, '_, A>,
    value: &Value,
) -> bool
    ensures { result ≡ has_zero_page_size above.now (value_of value.now) }
{
    match *value {
        Value::Number(n) => n.value() < 256,
        Value::Sum(n, m) => n.value().saturating_add(m.value()) < 256,
        Value::Name(name, n, minus) => match above.find(name) {
            Some(definition) => {
                definition.constant && is_small(value_from(definition, n, minus))
            }
            None => false,
        },
        Value::Less(name, n) => {
            if let Some(definition) = above.find(name) {
                definition.constant && is_small(lessened(definition, n.value()))
            } else {
                false
            }
        }
        Value::Difference(_, _) => false,
    }
}

fn is_small(value: Option<u128>) -> bool
    ensures { result ≡ is_small value }
{
    match value {
        Some(value) => value < 256,
        None => true,
    }
}
