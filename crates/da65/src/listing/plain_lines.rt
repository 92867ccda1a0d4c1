//! The lines without a label.

ghost use Rattle.std.specs.Prelude.{◌≡◌, ◌<◌};
ghost use Rattle.stmt65.specs.Words.{IsPrintable, statement_seen};
ghost use Rattle.stmt65.specs.Views as view;
ghost use Rattle.da65.specs.Words.{IsHeaderLine, line_text, plain};

use crate::listing::style::Style;
use stmt65::{Line, Remarks, Statement, put_line};

/// Replaces the buffer by the line of a statement without a label and without bytes.
#[inline(never)]
#[tactic(auto, unfolding(crate::specs::Listing::line_text))]
pub fn put_plain(out: &mut Line, style: &Style, statement: &Statement<'_>)
    requires { IsPrintable (statement_seen statement.now) }
    ensures { out.new.items ≡ line_text style.now (plain (statement_seen statement.now)) }
{
    let remarks = Remarks {
        level: style.level,
        hexoffs: style.hexoffs,
        address: 0,
        bytes: &[],
        label: None,
    };
    put_line(out, &style.columns, statement, &remarks);
}

// Remarks, the lines of the header and empty lines are few. Their statements are kept
// off the stack frame of all other lines.

/// Replaces the buffer by a remark.
#[inline(never)]
pub fn put_remark(out: &mut Line, style: &Style, text: &[u8])
    requires { IsPrintable (view.remark text.now) }
    ensures { out.new.items ≡ line_text style.now (plain (view.remark text.now)) }
{
    put_plain(out, style, &Statement::Remark(text));
}

/// Replaces the buffer by the line of this number of the header, 0 to 3.
#[inline(never)]
#[tactic(auto, using(crate::proofs::Rules::put_header_line_rules, std::proofs::lemmas::Grind::common_steps))]
pub fn put_header_line(out: &mut Line, style: &Style, number: usize)
    requires { number < 4 }
    ensures { IsHeaderLine style.now number out.new.items }
{
    if number == 0 {
        return put_plain(out, style, &Statement::Remark(b"da65 listing"));
    }
    if number == 2 {
        return put_plain(out, style, &Statement::SetCpu(style.cpu));
    }
    put_blank(out, style);
}

/// Replaces the buffer by an empty line.
#[inline(never)]
pub fn put_blank(out: &mut Line, style: &Style)
    ensures { out.new.items ≡ line_text style.now (plain view.blank) }
{
    put_plain(out, style, &Statement::Blank);
}
