//! The comment that a group gives its name.

ghost use Rattle.std.specs.Prelude.{◌≡◌, option_copied};
ghost use Rattle.info65.specs.Words.{assigned_seen, comment_in, lacks_name, unless_empty};

use crate::groups::group_values::{has, value_in};
use crate::syntax::assignment::{Assignment, as_comment};
use crate::syntax::attribute::Attribute;

fn unless_empty(text: Option<&[u8]>) -> Option<&[u8]>
    ensures { option_copied result ≡ unless_empty (option_copied text.entry) }
{
    match text {
        Some(text) => { if text.is_empty() { None } else { Some(text) } }
        None => None,
    }
}

/// The comment that is given; an empty one counts as none.
#[tactic(auto, unfolding(crate::specs::Comments::comment_in))]
pub fn comment_in<'a>(given: &[Assignment<'a>]) -> Option<&'a [u8]>
    ensures { option_copied result ≡ comment_in (assigned_seen given.now) }
{
    unless_empty(as_comment(value_in(given, Attribute::Comment)))
}

/// A comment is given, and no name for it.
#[tactic(auto, unfolding(crate::specs::Comments::lacks_name))]
pub fn lacks_name(given: &[Assignment]) -> bool
    ensures { result ≡ lacks_name (assigned_seen given.now) }
{
    comment_in(given).is_some() && !has(given, Attribute::Name)
}
