//! The comments of given names.

ghost use Rattle.std.specs.Prelude.{◌≡◌, IfSome};
ghost use Rattle.std.specs.Option.{option_copied};
ghost use Rattle.stmt65.specs.Words.{IsPrintable};
ghost use Rattle.stmt65.specs.Views as view;
ghost use Rattle.da65.specs.Words.{comment_at, comment_by};
ghost use Rattle.info65.specs.Words.{covering};

use crate::listing::listed_image::ListedImage;
use info65::Info;
use std::alloc::Allocator;

/// The comment of the name that is given to this address, if it has one. It is kept out
/// of the lines of groups without a name.
#[inline(never)]
#[tactic(auto, unfolding(crate::specs::Comments::comment_at))]
fn given_comment<A: Allocator>(info: &Info<A>, address: u16) -> Option<&[u8]>
    ensures { option_copied result ≡ comment_by address (covering info.now.names address) }
{
    let given = info.covering(address)?;
    if given.address == address {
        given.comment
    } else {
        None
    }
}

/// The comment of the name that has this address as its own, if it has one.
#[inline(always)]
#[tactic(auto, using(crate::proofs::Rules::comment_at_rules, std::proofs::lemmas::Grind::common_steps))]
pub fn comment_at<'a, A: Allocator>(listed: &ListedImage<'a, A>, address: u16) -> Option<&'a [u8]>
    ensures comment { option_copied result ≡ comment_at listed.now address }
    ensures printable { IfSome (option_copied result) (λ text. IsPrintable (view.remark text)) }
{
    if !listed.is_marked() {
        return None;
    }
    if !listed.map().has_name(address) {
        return None;
    }
    given_comment(listed.info(), address)
}
