//! The lines of labels, and the lines `#: ..`: for addresses that code loads in halves, and what lies after the image.

use crate::text::Text;
use info65::TagKind;
use reach65::image::ends;
use std::alloc::AllocError;
use text65::put_address;

/// The first address after the zero page.
const ZERO_PAGE_END: usize = 0x100;

/// How many instructions are told that have operands behind the image.
const TOLD: usize = 256;

/// How many of them stand in a line.
const IN_LINE: usize = 12;

impl Text<'_> {
    /// Adds the lines of the labels, with their default names.
    pub fn put_labels(&mut self) -> Result<(), AllocError> {
        for &label in &self.advice.labels {
            self.put_address(b"LABEL { ADDR $", label)?;
            self.put_address(b"; NAME \"L", label)?;
            self.put(b"\"; };\n")?;
        }
        Ok(())
    }

    /// Adds a line for each pair.
    pub fn put_pairs(&mut self) -> Result<(), AllocError> {
        for pair in &self.advice.addresses.pairs {
            let meant = pair.address.saturating_add(pair.less);
            self.put_address(b"#: HALVES { LOW $", pair.low)?;
            self.put_address(b"; HIGH $", pair.high)?;
            self.put_address(b"; }; # $", meant)?;
            self.put_name(meant)?;
            if pair.less == 1 {
                self.put(b" less 1")?;
            }
            self.put(b"\n")?;
        }
        Ok(())
    }

    /// Adds a comment for each pair that may be an address.
    pub fn put_likely(&mut self) -> Result<(), AllocError> {
        for pair in &self.advice.addresses.likely {
            self.put_address(b"# the bytes at $", pair.low)?;
            self.put_address(b" and $", pair.high)?;
            self.put_address(b" are $", pair.address)?;
            self.put_name(pair.address)?;
            self.put(b": HALVES?\n")?;
        }
        Ok(())
    }

    /// Adds a line for each two tables of halves.
    pub fn put_splits(&mut self) -> Result<(), AllocError> {
        for split in &self.advice.data.splits {
            self.put_address(b"#: HALVES { LOW $", split.table.low)?;
            self.put_address(b"; HIGH $", split.table.high)?;
            self.put_decimal(b"; SIZE ", split.count)?;
            self.put(b"; };\n")?;
        }
        Ok(())
    }

    /// Whether the file says what lies after the image.
    fn has_after(&self) -> bool {
        let tags = self.advice.steps.tags();
        tags.iter().any(|tag| tag.kind == TagKind::After)
    }

    /// Returns the greatest address of the pairs and the variables, if it lies after the image, and unless the file
    /// says what lies there, or the image ends in the zero page: operands of one byte have addresses of that.
    pub fn last_after(&self) -> Option<u16> {
        let addresses = &self.advice.addresses;
        let mut last = addresses.variables.addresses.last().copied().unwrap_or(0);
        for pair in &addresses.pairs {
            last = last.max(pair.address);
        }
        let (_, end) = ends(self.advice.steps.image());
        let is_after = ZERO_PAGE_END <= end && end <= usize::from(last);
        (is_after && !self.has_after()).then_some(last)
    }

    /// Adds what a group AFTER has: from the end of the image to this address.
    fn put_span(&mut self, last: u16) -> Result<(), AllocError> {
        let (_, end) = ends(self.advice.steps.image());
        put_address(&mut self.out, b"AFTER { START $", end)?;
        self.put_address(b"; END $", last)?;
        self.put(b"; }")
    }

    /// Adds the line of what lies after the image, unless the file says it.
    pub fn put_after(&mut self) -> Result<(), AllocError> {
        let Some(last) = self.last_after() else {
            return Ok(());
        };
        self.put(b"#: ")?;
        self.put_span(last)?;
        self.put(b";\n")
    }

    /// Adds a comment for operands that would be variables if the file had no name there, and that lie behind what is
    /// proposed, with the instructions that have them, unless the file says what lies after the image.
    pub fn put_named(&mut self) -> Result<(), AllocError> {
        let variables = &self.advice.addresses.variables;
        let proposed = self.last_after().unwrap_or(0);
        let known = variables.named.partition_point(|at| *at <= proposed);
        let rest = variables.named.get(known..).unwrap_or(&[]);
        if let (Some(&first), Some(&last)) = (rest.first(), rest.last())
            && !self.has_after()
        {
            self.put_address(b"# the operands $", first)?;
            self.put_address(b" to $", last)?;
            self.put_address(b" stay, since $", variables.name_at)?;
            self.put_name(variables.name_at)?;
            self.put(b" has a name: ")?;
            self.put_span(last)?;
            self.put(b"?")?;
            self.put_users(rest)?;
        }
        Ok(())
    }

    /// Adds a comment for operands that lie far behind the image or its variables, if they may be some of it, with the
    /// instructions that have them, unless the file says what lies there.
    pub fn put_far(&mut self) -> Result<(), AllocError> {
        let advice = self.advice;
        let (_, end) = ends(advice.steps.image());
        let tags = advice.steps.tags();
        let said = tags.iter().filter(|tag| tag.kind == TagKind::After);
        let said = said.filter_map(|tag| tag.last).max();
        let variables = &advice.addresses.variables;
        if said.is_none() {
            self.put_operands(&variables.far, end, b" bytes after the image")?;
        }
        let last = variables.addresses.last().or(variables.far.last()).copied();
        let behind = last
            .max(said)
            .map_or(end, |last| usize::from(last).saturating_add(1));
        let known = variables
            .beyond
            .partition_point(|at| usize::from(*at) < behind);
        let beyond = variables.beyond.get(known..).unwrap_or(&[]);
        self.put_operands(beyond, behind, b" bytes after the variables")
    }

    /// Adds a comment for these operands, which begin behind this end, and lines with the instructions that have them.
    fn put_operands(&mut self, far: &[u16], end: usize, what: &[u8]) -> Result<(), AllocError> {
        let (Some(&first), Some(&last)) = (far.first(), far.last()) else {
            return Ok(());
        };
        self.put_address(b"# the operands $", first)?;
        self.put_address(b" to $", last)?;
        self.put_decimal(b" lie ", usize::from(first).saturating_sub(end))?;
        self.put(what)?;
        self.put(b": ")?;
        self.put_span(last)?;
        self.put(b"?")?;
        self.put_users(far)
    }

    /// Ends a line of these operands, which are in order, and adds lines with the instructions that have them.
    fn put_users(&mut self, operands: &[u16]) -> Result<(), AllocError> {
        let advice = self.advice;
        let mut count = 0usize;
        for &at in &advice.survey.users {
            let operand = advice.steps.at(at).and_then(|step| step.operand);
            if count < TOLD
                && operand.is_some_and(|operand| operands.binary_search(&operand).is_ok())
            {
                self.put(if count % IN_LINE == 0 {
                    b"\n#  used by"
                } else {
                    b""
                })?;
                self.put_address(b" $", at)?;
                count = count.saturating_add(1);
            }
        }
        self.put(b"\n")
    }
}
