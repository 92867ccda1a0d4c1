//! The names of a listing for emulators, as ld65 writes them with `-Ln`.

ghost use Rattle.std.specs.Prelude.{◌≡◌, ◌++◌, IfErr, IfOk, IsOk, OnOk, map};
ghost use Rattle.stmt65.specs.Words.{definition_of, source_meaning};
ghost use Rattle.as65.specs.Words.{Reports, label_line, labels_of, source_labels};

use crate::failure::Failure;
use files65::failure_of;
use std::alloc::{AllocError, Global};
use stmt65::{Definition, Source, assemble_lines};
use text65::put_address;

/// Appends the line of a name whose value is an address.
fn put_label(out: &mut Vec<u8>, name: Definition<'_>) -> Result<(), AllocError>
    ensures { OnOk result (out.new.items ≡ out.old.items ++ label_line (definition_of name.entry)) }
{
    if 65_536 <= name.value {
        return Ok(());
    }
    put_address(out, b"al 00", name.value as usize)?;
    out.extend_from_slice(b" .")?;
    out.extend_from_slice(name.name)?;
    out.extend_from_slice(b"\n")
}

/// The lines of these names, in their order.
fn label_lines(alloc: Global, definitions: &[Definition<'_>]) -> Result<Vec<u8>, AllocError>
    ensures { IfOk result (λ text. text.items ≡ labels_of (map definition_of definitions.now)) }
{
    let mut out = Vec::new(alloc);
    'names: for name in definitions {
        put_label(&mut out, *name)?;
    }
    Ok(out)
}

/// A line for each label and constant below $10000 of the listing of this name, in the order in which it
/// defines them. Fails with its first fault.
pub fn names_in(alloc: Global, source: &Source<'_, '_, '_>, name: &str) -> Result<Vec<u8>, Failure>
    /// With `--labels` the text has a line `al 00FE04 .say` for each name that the listing defines with a value
    /// below $10000, in order, and no other line. Only a listing that assembles has them: a fault is reported as by
    /// `Assembled::new`.
    ensures lines { IfOk result (λ text. text.items ≡ source_labels source.now) }
    ensures whole { OnOk result (IsOk (source_meaning source.now)) }
    ensures fault { IfErr result (Reports name.now source.now) }
{
    match assemble_lines(&alloc, source) {
        Ok(assembly) => Ok(label_lines(alloc, assembly.names.definitions())?),
        Err(explained) => Err(failure_of(alloc, explained, name, source)),
    }
}
