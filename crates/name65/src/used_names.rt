//! Which names the lines of a listing use.

use std::alloc::{AllocError, Global};
use std::collections::BTreeSet;
use stmt65::{Source, SourceLine, names_in, read_line};
use text65::first_line;

/// The names that lines use, if that is asked for.
#[derive(Drop)]
pub struct UsedNames<'t> {
    used: Option<BTreeSet<&'t [u8]>>,
}

impl<'t> UsedNames<'t> {
    /// Nobody asks for them.
    pub fn none() -> UsedNames<'t> {
        UsedNames { used: None }
    }

    /// Takes down which names the lines of a text use.
    pub fn take_used(
        &mut self,
        alloc: Global,
        source: &Source<'t, '_, '_>,
    ) -> Result<(), AllocError> {
        self.used = Some(BTreeSet::new(alloc));
        let mut rest = source.text;
        'lines: while let Some((line, after)) = first_line(rest) {
            if let Some(SourceLine::Statement { operation, .. }) = read_line(
                alloc,
                source.language,
                line,
            )? {
                for name in &names_in(alloc, &operation)? {
                    self.use_name(name)?;
                }
            }
            rest = after;
        }
        Ok(())
    }

    /// The name is used from now on.
    pub fn use_name(&mut self, name: &'t [u8]) -> Result<(), AllocError> {
        if let Some(used) = &mut self.used {
            used.insert(name)?;
        }
        Ok(())
    }

    /// Whether the constant line of this name is to be left out.
    pub fn is_left_out(&self, name: &[u8]) -> bool {
        match &self.used {
            Some(used) => !used.contains(name),
            None => false,
        }
    }
}
