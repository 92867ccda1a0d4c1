//! The files of a run: those that it needs, and those that a caller passes to it.

ghost use Rattle.std.specs.Option.{option_copied};
ghost use Rattle.std.specs.Prelude.{IfOk, map, ◌≡◌};
ghost use Rattle.std.specs.String.{string_bytes};
ghost use Rattle.info65.specs.Words.{name_seen};
ghost use Rattle.da65.specs.Words.{file_named, files_seen, needs_of, nothing};

use info65::{IncludeSpec, Info};
use std::alloc::{AllocError, Allocator, Global};
use std::marker::Model;

/// A file that a caller hands in for an information file to include. Of two files of one name the first counts.
#[derive(Clone, Copy, Debug, PartialEq, Eq)]
pub struct File<'a> {
    /// The name by which the information file includes it.
    pub name: &'a str,
    /// Its whole contents.
    pub bytes: &'a [u8],
}

/// The bytes of the first file of this name.
#[tactic(auto, unfolding(crate::specs::Files::file_named))]
pub fn file_named<'a>(files: &[File<'a>], name: &str) -> Option<&'a [u8]>
    ensures { option_copied result ≡ file_named (files_seen files.now) name.now }
{
    for file in files {
        if file.name == name {
            return Some(file.bytes);
        }
    }
    None
}

/// The names of the files that a run needs. A contract sees each as a list of bytes.
#[derive(Drop)]
pub struct Needs<A: Allocator = Global> {
    /// The name of the input file.
    pub input: Option<String<A>>,
    /// The name of the output file; without one it is standard output.
    pub output: Option<String<A>>,
    /// The names of the include files, in the order of their groups, 16 at most. A name that two groups have
    /// stands there twice.
    pub includes: Vec<String<A>, A>,
}

impl<A: Allocator> Model for Needs<A> {
    ghost use Rattle.std.specs.Prelude.{map};
    ghost use Rattle.std.specs.String.{string_bytes};
    ghost use Rattle.info65.specs.Words.{name_seen};
    ghost use Rattle.da65.specs.NeedsView.{NeedsView};

    ghost Value = { NeedsView };

    ghost view = { λ n. record { input = name_seen n.input; output = name_seen n.output; includes = map string_bytes n.includes.items } };
}

/// The names in the settings, and those of the include files.
pub(crate) fn needs_of<A: Allocator + Copy>(
    alloc: A,
    info: &Info<A>,
) -> Result<Needs<A>, AllocError>
    ensures { IfOk result (λ n. n ≡ needs_of info.now) }
{
    let settings = info.settings();
    let input = copied(alloc, &settings.input)?;
    let output = copied(alloc, &settings.output)?;
    let includes = names_of(alloc, info.includes())?;
    Ok(Needs {
        input,
        output,
        includes,
    })
}

/// No name at all.
pub(crate) fn nothing<A: Allocator>(alloc: A) -> Needs<A>
    ensures { result ≡ nothing }
{
    Needs {
        input: None,
        output: None,
        includes: Vec::new(alloc),
    }
}

fn copied<A: Allocator>(alloc: A, name: &Option<String<A>>) -> Result<Option<String<A>>, AllocError>
    ensures { IfOk result (λ n. name_seen n ≡ name_seen name.now) }
{
    match name {
        Some(name) => Ok(Some(String::from_str(alloc, name.as_str())?)),
        None => Ok(None),
    }
}

/// The names of include files, in their order.
fn names_of<A: Allocator + Copy>(
    alloc: A,
    includes: &[IncludeSpec<A>],
) -> Result<Vec<String<A>, A>, AllocError>
    ensures { IfOk result (λ names. map string_bytes names.items ≡ map (λ x. x.file) includes.now) }
{
    let mut names = Vec::new(alloc);
    for include in includes {
        names.push(String::from_str(alloc, include.file.as_str())?)?;
    }
    Ok(names)
}
