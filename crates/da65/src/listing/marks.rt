//! Whether a listing has separators, segments or comments.

ghost use Rattle.std.specs.Prelude.{◌==◌, ◌≡◌, length, not};
ghost use Rattle.std.specs.List.{list_any};
ghost use Rattle.da65.specs.Words.{has_comment, has_marks};

use crate::listing::style::Style;
use info65::Info;
use std::alloc::Allocator;

/// Whether a given name has a comment.
fn has_comment<A: Allocator>(info: &Info<A>) -> bool
    ensures { result ≡ list_any has_comment info.now.names }
{
    for at in 0..info.given_count() {
        if info.given(at).comment.is_some() {
            return true;
        }
    }
    false
}

/// Whether a segment is given.
fn has_segments<A: Allocator>(info: &Info<A>) -> bool
    ensures { result ≡ not (length info.now.segments == 0) }
{
    !info.segments().is_empty()
}

/// Whether a listing may have separators, segments or comments.
pub fn has_marks<A: Allocator>(info: &Info<A>, style: &Style) -> bool
    ensures { result ≡ has_marks info.now style.now }
{
    style.level.get() != 0 || has_segments(info) || has_comment(info)
}
