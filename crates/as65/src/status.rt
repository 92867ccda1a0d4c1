//! The status with which the program ends.

ghost use Rattle.std.specs.Prelude.{◌≡◌};
ghost use Rattle.as65.specs.Words.{status_of};

/// How a run ended that did what it was asked for.
#[derive(Clone, Copy)]
pub enum Ended {
    /// What was asked for was written, or no byte differs.
    Done,
    /// Bytes differ.
    Differs,
}

/// 0 if what was asked for was written or no byte differs, and 1 if bytes differ. Trouble is 2 beside
/// `--compare`, as with `cmp`, and otherwise 1.
pub fn status_of(is_comparing: bool, ended: Option<Ended>) -> u8
    /// The status is 0 if everything was done, and 1 if bytes differ. For trouble it is 2 with `--compare`,
    /// otherwise 1.
    ensures { result ≡ status_of is_comparing ended }
{
    match ended {
        Some(Ended::Done) => 0,
        Some(Ended::Differs) => 1,
        None if is_comparing => 2,
        None => 1,
    }
}
