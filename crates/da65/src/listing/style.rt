//! What the settings say of the lines of a listing.

ghost use Rattle.std.specs.Prelude.{◌≡◌};
ghost use Rattle.da65.specs.Words.{columns_of, has_empty_line, style_of};
ghost use Rattle.info65.specs.Words.{AreInLimits};
ghost use Rattle.stmt65.specs.Words.{statement_seen};

use info65::Settings;
use isa65::{Cpu, Mnemonic};
use std::alloc::Allocator;
use stmt65::{Column, Columns, LabelBreak, Level, Statement};

/// What the settings say of the lines of a listing.
#[derive(Clone, Copy)]
pub struct Style {
    /// The CPU that `.setcpu` names.
    pub cpu: Cpu,
    /// Where the fields of a line stand.
    pub columns: Columns,
    /// What the remarks of a line have.
    pub level: Level,
    /// Whether offsets are written in hex digits.
    pub hexoffs: bool,
    /// Whether an empty line stands after `jmp`.
    pub after_jmp: bool,
    /// Whether an empty line stands after `rts`.
    pub after_rts: bool,
}

/// The columns that these settings ask for.
fn columns_of<A: Allocator>(settings: &Settings<A>) -> Columns
    requires { AreInLimits settings.now }
    ensures { result ≡ columns_of settings.now }
{
    Columns {
        mnemonic: Column::try_from(settings.mnemonic_column).unwrap(),
        argument: Column::try_from(settings.argument_column).unwrap(),
        comment: Column::try_from(settings.comment_column).unwrap(),
        text: Column::try_from(settings.text_column).unwrap(),
        label_break: LabelBreak::try_from(settings.label_break).unwrap(),
    }
}

/// The style that these settings ask for.
#[tactic(auto, unfolding(crate::specs::Style::style_of))]
pub fn style_of<A: Allocator>(settings: &Settings<A>) -> Style
    requires { AreInLimits settings.now }
    ensures { result ≡ style_of settings.now }
{
    Style {
        cpu: settings.cpu,
        columns: columns_of(settings),
        level: Level::try_from(settings.comments).unwrap(),
        hexoffs: settings.hexoffs,
        after_jmp: settings.newline_after_jmp,
        after_rts: settings.newline_after_rts,
    }
}

/// Whether an empty line stands after the line of this statement.
pub fn has_empty_line(style: &Style, statement: &Statement<'_>) -> bool
    ensures { result ≡ has_empty_line style.now (statement_seen statement.now) }
{
    match statement {
        Statement::Instr { op, .. } => {
            (style.after_jmp && op.mnemonic == Mnemonic::Jmp)
                || (style.after_rts && op.mnemonic == Mnemonic::Rts)
        }
        _ => false,
    }
}
