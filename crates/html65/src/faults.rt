//! Reads a page back: whether its text is that of the listing, and each link within it leads to one element.

ghost use Rattle.std.specs.Prelude.{◌≡◌, ◌++◌, ◌∷◌, [], List, None, IfOk, IfSome, IsTrue, OnOk, codes};
ghost use Rattle.std.specs.Option.{option_copied};
ghost use Rattle.html65.specs.Links.{Adds, AreLinksWhole, found_in, quoted_after};
ghost use Rattle.html65.specs.PageText.{after_tag, kept, text_from, text_of};
ghost use Rattle.html65.specs.Pieces.{Piece as APiece};
ghost use Rattle.html65.specs.Views.{AreAllFound, piece_of};

use crate::ids::{are_found, index_of};
use crate::pieces::{Piece, first_piece, len_before};
use std::alloc::{AllocError, Global};

/// What a page has not that it promises.
#[derive(Clone, Copy)]
pub enum Fault {
    Text,
    Links,
}

/// Where a text stands.
#[derive(Clone, Copy)]
pub enum Region {
    /// Before the listing.
    Before,
    /// In the listing.
    Listing,
    /// In what the page adds to the listing.
    Remark,
    /// After the listing.
    After,
}

/// Where the text after a tag stands.
fn after_tag(place: Region, tag: &[u8]) -> Region
    ensures { result ≡ after_tag place tag.now }
{
    match place {
        Region::Before if tag == b"pre id=\"listing\"".as_slice() => Region::Listing,
        Region::Listing if tag == b"i".as_slice() || tag.starts_with(b"i ") => Region::Remark,
        Region::Listing if tag == b"/pre".as_slice() => Region::After,
        Region::Remark if tag == b"/i".as_slice() => Region::Listing,
        _ => place,
    }
}

/// What is left of the listing after a text of a page, if that begins it or is not the listing's.
#[tactic(auto, using(crate::proofs::LinkLemmas::begun))]
fn left_after<'t>(place: Region, left: &'t [u8], text: &[u8]) -> Option<&'t [u8]>
    ensures { IfSome result (λ after. left.now ≡ kept place text.now ++ after.now) }
{
    match place {
        Region::Listing if left.starts_with(text) => Some(&left[text.len()..]),
        Region::Listing => None,
        _ => Some(left),
    }
}

/// Where the text after a piece stands and what is left of the listing there, if the
/// piece has no other text than the listing.
fn passed<'t>(place: Region, left: &'t [u8], piece: Piece<'_>) -> Option<(Region, &'t [u8])>
    ensures { IfSome result (λ f. (rest : List APiece) → text_from f.0 rest ≡ f.1.now
        → text_from place (piece_of piece.entry ∷ rest) ≡ left.now) }
{
    match piece {
        Piece::Tag(tag) => Some((after_tag(place, tag), left)),
        Piece::Text(text) => match left_after(place, left, text) {
            Some(after) => Some((place, after)),
            None => None,
        },
    }
}

/// What stands in a tag between a blank with these bytes and the next `"`. The
/// blanks are looked at one after the other.
#[inline(always)]
#[tactic(auto, using(crate::proofs::LinkLemmas::quoted_steps))]
fn quoted_after<'a>(more: &[u8], tag: &'a [u8]) -> Option<&'a [u8]>
    ensures { option_copied result ≡ quoted_after (32 ∷ more.now) tag.now }
{
    let mut rest = tag;
    'rests: while !rest.is_empty() {
        let next = &rest[1..];
        if rest[0] == b' ' && next.starts_with(more) {
            let after = &rest[1 + more.len()..];
            return Some(&after[..len_before(b'"', after)]);
        }
        rest = &next[len_before(b' ', next)..];
    }
    None
}

/// Takes down what a tag has, if it has it.
#[inline(always)]
fn take<'p>(values: &mut Vec<&'p [u8]>, value: Option<&'p [u8]>) -> Result<(), AllocError>
    ensures { OnOk result (Adds values.old.items values.new.items (option_copied value.entry)) }
{
    if let Some(name) = value {
        values.push(name)?;
    }
    Ok(())
}

/// The ids and the targets of a page.
#[derive(Drop)]
struct Found<'p> {
    ids: Vec<&'p [u8]>,
    targets: Vec<&'p [u8]>,
}

/// Takes down the id and the target of a piece, if it is a tag that has them. Neither stands before its first blank,
/// nor in a tag of less than five bytes.
#[tactic(auto, using(crate::proofs::LinkLemmas::quoted_from_blank))]
fn take_both<'p>(found: &mut Found<'p>, piece: Piece<'p>) -> Result<(), AllocError>
    ensures ids { OnOk result (Adds found.old.ids.items found.new.ids.items
        (found_in (codes " id=\"") (piece_of piece.entry))) }
    ensures targets { OnOk result (Adds found.old.targets.items found.new.targets.items
        (found_in (codes " href=\"#") (piece_of piece.entry))) }
{
    if let Piece::Tag(tag) = piece {
        if tag.len() < 5 {
            return Ok(());
        }
        let tag = &tag[len_before(b' ', tag)..];
        take(&mut found.ids, quoted_after(b"id=\"", tag))?;
        take(&mut found.targets, quoted_after(b"href=\"#", tag))?;
    }
    Ok(())
}

/// Whether the ids of each kind are in order, and each link of a page of which these are all leads to one of them.
fn are_whole(alloc: Global, found: &Found<'_>) -> Result<bool, AllocError>
    ensures { IfOk result (λ whole. IsTrue whole
        → AreAllFound found.now.ids.items found.now.targets.items) }
{
    let Some(index) = index_of(alloc, &found.ids)? else {
        return Ok(false);
    };
    Ok(are_found(&found.ids, &index, &found.targets))
}

/// The first promise that a page does not keep for this listing. The ids of each kind have to be in order,
/// whether a link leads to them or not.
#[tactic(auto, using(crate::proofs::LinkLemmas::read_back))]
pub fn fault_in(alloc: Global, page: &[u8], listing: &[u8]) -> Result<Option<Fault>, AllocError>
    /// If it finds no fault in any bytes, these are a page whose text is the listing, and each link within it is
    /// the `id` of exactly one element.
    ensures text { IfOk result (λ fault. fault ≡ None → text_of page.now ≡ listing.now) }
    ensures links { IfOk result (λ fault. fault ≡ None → AreLinksWhole page.now) }
{
    let mut found = Found {
        ids: Vec::new(alloc),
        targets: Vec::new(alloc),
    };
    let mut place = Region::Before;
    let mut left = listing;
    let mut rest = page;
    'pieces: while let Some((piece, after)) = first_piece(rest) {
        let Some(next) = passed(place, left, piece) else {
            return Ok(Some(Fault::Text));
        };
        place = next.0;
        left = next.1;
        take_both(&mut found, piece)?;
        rest = after;
    }
    if !left.is_empty() {
        return Ok(Some(Fault::Text));
    }
    let holds = are_whole(alloc, &found)?;
    if holds {
        return Ok(None);
    }
    Ok(Some(Fault::Links))
}
