// Assertions that end a test, as `assert!` and `assert_eq!` do. Their messages have the values and the row.
ghost use Rattle.std.specs.Prelude.{◌≡◌, true};

use std::fmt::{Debug, Display};
use std::process::Abort;

/// Both are the same.
pub fn assert_equal<T: PartialEq + Debug>(rt: &impl Abort, left: &T, right: &T) {
    if left != right {
        rt.panic(format_args!("{left:?} is not {right:?}"))
    }
}

/// Both are the same. `row` says where in a table, as its text or its number.
pub fn assert_equal_at<T: PartialEq + Debug, R: Display>(
    rt: &impl Abort,
    left: &T,
    right: &T,
    row: &R,
) {
    if left != right {
        rt.panic(format_args!("{left:?} is not {right:?} at {row}"))
    }
}

/// What stands at the end of a text: its last line, at most 60 bytes.
fn last_line(text: &[u8]) -> &[u8] {
    let (_, near) = text.split_at(text.len().saturating_sub(60));
    near.rsplit(|byte| *byte == b'\n').next().unwrap_or(near)
}

/// What stands at the front of a text: its first line, at most 60 bytes.
fn first_line(text: &[u8]) -> &[u8] {
    let (near, _) = text.split_at(text.len().min(60));
    near.split(|byte| *byte == b'\n').next().unwrap_or(near)
}

/// Both texts are the same, however long. The message has the first line that differs, around the place where it does.
pub fn assert_same<R: Display>(rt: &impl Abort, left: &[u8], right: &[u8], row: &R) {
    if left != right {
        let place = left.iter().zip(right).take_while(|(a, b)| a == b).count();
        let (front, left) = left.split_at(place.min(left.len()));
        let (_, right) = right.split_at(place.min(right.len()));
        let lines = front.iter().filter(|byte| **byte == b'\n').count();
        let number = lines.saturating_add(1);
        let same = last_line(front).escape_ascii();
        let left = first_line(left).escape_ascii();
        let right = first_line(right).escape_ascii();
        rt.panic(format_args!("line {number}: {same}{left} is not {same}{right} at {row}"))
    }
}

/// It is so.
pub fn assert_that(rt: &impl Abort, is_so: bool)
    ensures { is_so ≡ true }
{
    if !is_so {
        rt.panic("it is not so")
    }
}

/// It is so. `row` says where in a table, as its text or its number.
pub fn assert_that_at<R: Display>(rt: &impl Abort, is_so: bool, row: &R)
    ensures { is_so ≡ true }
{
    if !is_so {
        rt.panic(format_args!("it is not so at {row}"))
    }
}

#[test]
#[should_panic(expected = "1 is not 2")]
fn unequal(rt: HostRuntime) {
    assert_equal(&rt, &1, &2);
}

#[test]
#[should_panic(expected = "1 is not 2 at row")]
fn unequal_at(rt: HostRuntime) {
    assert_equal_at(&rt, &1, &2, &"row");
}

#[test]
#[should_panic(expected = "it is not so")]
fn untrue(rt: HostRuntime) {
    assert_that(&rt, 1 == 2);
}

#[test]
#[should_panic(expected = "it is not so at row")]
fn untrue_at(rt: HostRuntime) {
    assert_that_at(&rt, 1 == 2, &"row");
}
