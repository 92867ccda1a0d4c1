//! Names of addresses.

ghost use Rattle.std.specs.Prelude.{◌≡◌, ◌≤◌, length};
ghost use Rattle.info65.specs.Words.{default_name};

use arrayvec::ArrayVec;
use info65::default_name;

/// A buffer for a name, which has at most 80 bytes.
pub type NameBuf = ArrayVec<u8, 80>;

/// Where a listing defines a base name.
#[derive(Clone, Copy, Debug, PartialEq, Eq)]
pub enum Place {
    /// By a constant line: its address lies outside the image or is skipped.
    Constant,
    /// By a label: an item begins at its address.
    Label,
    /// By a line before the item of code that its address lies inside.
    Forward,
}

/// What belongs to the base name of an address.
#[derive(Clone, Copy, Debug, PartialEq, Eq)]
pub struct NameKind {
    /// Where the base name is defined.
    pub place: Place,
    /// How far the address lies after the address of the base name.
    pub offset: u16,
}

/// Replaces what the buffer holds by a name.
pub fn put_text(name: &mut NameBuf, text: &[u8])
    requires { length text.now ≤ 80 }
    ensures { name.new.items ≡ text.now }
{
    name.clear();
    let taken = name.try_extend_from_slice(text);
    prove!(taken.is_ok());
}

/// Replaces what the buffer holds by the default name of an address.
pub fn put_default(name: &mut NameBuf, address: u16)
    ensures { name.new.items ≡ default_name address }
{
    put_text(name, &default_name(address));
}
