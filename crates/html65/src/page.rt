//! The page of a listing.

ghost use Rattle.std.specs.Prelude.{◌≡◌, IfErr, IfOk};
ghost use Rattle.std.specs.String.{string_bytes};
ghost use Rattle.files65.specs.FaultyLine.{MayReport};
ghost use Rattle.html65.specs.Links.{AreLinksWhole};
ghost use Rattle.html65.specs.PageText.{text_of};

use crate::calls::put_routines;
use crate::failure::{Failure, Refused};
use crate::faults::{Fault, fault_in};
use crate::head::put_head;
use crate::listing::put_listing;
use crate::map::{put_map, put_pages};
use crate::markup::{Put, put};
use crate::request::Showing;
use crate::survey::Survey;
use crate::tables::{LINKS, put_groups, put_lists};
use files65::{FileFault, assembled};
use std::alloc::{AllocError, Global};
use stmt65::{Assembly, Source};

/// A page with this survey. Few have more than a hundred bytes for each byte of the image.
fn page_with(
    alloc: Global,
    showing: &Showing,
    survey: &Survey<'_, '_>,
) -> Result<Vec<u8>, AllocError> {
    let room = survey.bytes.len().saturating_mul(100);
    let mut out = Ok(Vec::with_capacity(alloc, room.saturating_add(survey.text.len()))?);
    put_head(&mut out, showing, survey);
    put_pages(&mut out, survey);
    put!(&mut out; LINKS);
    put_map(alloc, &mut out, survey)?;
    put_routines(alloc, &mut out, survey)?;
    put_lists(&mut out, survey);
    put_groups(&mut out, survey);
    put!(&mut out; "</nav>\n");
    put_listing(alloc, &mut out, survey)?;
    put!(&mut out; "</main>\n</body>\n</html>\n");
    out
}

/// A page of a listing that assembles so. What it was made of is not kept.
fn page_from<'t>(
    alloc: Global,
    showing: &Showing,
    source: &Source<'t, '_, '_>,
    assembly: &Assembly<'t, '_, Global>,
) -> Result<Vec<u8>, AllocError> {
    let survey = Survey::of(alloc, source, assembly)?;
    page_with(alloc, showing, &survey)
}

/// A page of which nothing is checked yet.
fn unchecked_page(
    alloc: Global,
    showing: &Showing,
    source: &Source<'_, '_, '_>,
) -> Result<Vec<u8>, Failure>
    ensures { IfErr result (MayReport (string_bytes showing.now.names.listing) source.now) }
{
    let name = showing.names.listing.as_str();
    let assembly = assembled(&alloc, name, source)?;
    if assembly.bytes.is_empty() {
        return Err(Failure::File(FileFault::Empty(String::from_str(alloc, name)?)));
    }
    Ok(page_from(alloc, showing, source, &assembly)?)
}

/// Returns the page of the listing. Fails with the first fault of the listing, and if it has no byte.
///
/// Nothing is trusted for what the page promises: it is read back, and unless its text is the listing and each of its
/// links leads to one element, there is none.
pub fn page_of(
    alloc: Global,
    showing: &Showing,
    source: &Source<'_, '_, '_>,
) -> Result<Vec<u8>, Failure>
    /// If there is a page, its text is exactly the listing: the text in `<pre id="listing">` without tags and
    /// without the elements `<i>`, with `&amp;`, `&lt;`, `&gt;`, `&#13;` and `&#0;` resolved.
    ensures text { IfOk result (λ page. text_of page.items ≡ source.now.text.now) }
    /// Each link within the page, an attribute `href` that begins with `#`, is the `id` of exactly one element.
    ensures links { IfOk result (λ page. AreLinksWhole page.items) }
    /// If a line of the listing is reported, it is the line of the first fault, with the name of the listing, a hint or
    /// none, and the beginning of the line, as as65 reports it.
    ensures fault { IfErr result (MayReport (string_bytes showing.now.names.listing) source.now) }
{
    let name = showing.names.listing.as_str();
    let page = unchecked_page(alloc, showing, source)?;
    match fault_in(alloc, &page, source.text)? {
        None => Ok(page),
        Some(Fault::Text) => Err(Failure::Own(Refused::Text(String::from_str(alloc, name)?))),
        Some(Fault::Links) => Err(Failure::Own(Refused::Links(String::from_str(alloc, name)?))),
    }
}
