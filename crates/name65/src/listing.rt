//! The listing by names that a command line asks for.

ghost use Rattle.std.specs.Prelude.{IfOk};
ghost use Rattle.name65.specs.Listings.{IsWritten};

use crate::failure::Failure;
use crate::labels_first::with_labels_first;
use crate::named_text::named_text;
use crate::setup::Setup;
use files65::{layout_of, start_or_end};
use std::alloc::Global;
use stmt65::{Language, Source};

/// The listing of this text by names; if that is asked for, with its labels first.
#[tactic(auto, using(crate::proofs::ListingLemmas::written_as_it_is))]
pub fn listing_by_names(alloc: Global, setup: &Setup<'_>, text: &[u8]) -> Result<Vec<u8>, Failure>
    /// The text that is written is by names as `named_text` says: by all groups that were read, from the start of the
    /// information file, or else so that the last byte is at $FFFF, with segments at their START exactly with `--fill`,
    /// and without constant lines exactly with `--used`; exactly with `--labels-first` by the listing that
    /// `with_labels_first` makes.
    ensures { IfOk result (λ written. IsWritten setup.now text.now written.items) }
{
    let Setup { naming, info, .. } = *setup;
    let layout = layout_of(alloc, info.segments(), naming.fill)?;
    let start = start_or_end(alloc, info.settings().start, &layout, text)?;
    let source = Source {
        language: Language::Repair,
        layout: &layout,
        start,
        text,
    };
    if !naming.labels_first {
        return Ok(named_text(alloc, &source, setup)?);
    }
    let first = with_labels_first(alloc, naming.names.listing.as_str(), &source)?;
    let source = Source {
        text: &first,
        ..source
    };
    named_text(alloc, &source, setup)
}
