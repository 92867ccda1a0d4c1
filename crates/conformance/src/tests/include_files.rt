// Include files, by themselves and in runs. `tests/rows/da65.txt` has what small files say.
ghost use Rattle.std.specs.Prelude.{IfOk};
ghost use Rattle.info65.specs.Words.{AreNames};

use crate::tests::asserts::{assert_equal, assert_that, assert_that_at};
use crate::tests::devices::Tape;
use crate::tests::inputs::info_of;
use crate::tests::runs::{Given, NAMED};
use da65::{File, Status};
use info65::{Inclusion, Info, InfoFault, InfoFaultKind, NamePool, read_include};
use std::alloc::{AllocError, AllocGlobal};
use std::process::Abort;

/// The names by address, each with its size.
pub fn put_names(out: &mut String, info: &Info) -> Result<(), AllocError> {
    for place in 0..info.given_count() {
        let given = info.given(place);
        let name = given.text.escape_ascii();
        write!(out, " {:04X} {name}+{}", given.address, given.size)?;
    }
    Ok(())
}

const TWO: &[u8] = b"ASMINC { FILE \"k.inc\"; }; ASMINC { FILE \"j.inc\"; COMMENTSTART '#'; };";

/// A fault leaves the names as they were, and the file can be read again.
#[test]
fn two_include_files(rt: HostRuntime) {
    let mut info = info_of(&rt, TWO);
    let mut out = String::new(rt.alloc());
    let files: [(usize, &[u8]); 4] = [
        (0, b"K = $10\n.bad"),
        (0, b"K = $20 ; two"),
        (1, b"J = $20\nI = 2 # two\nK = 3"),
        (1, b"J = $20\nI = 2 # two\nK = $20"),
    ];
    for (place, file) in files {
        assert_that_at(&rt, place < info.includes().len(), &place);
        if let Err(fault) = read_include(rt.alloc(), &mut info, place, file) {
            write!(out, " {fault}").expect(&rt, "write");
        }
    }
    put_names(&mut out, &info).expect(&rt, "put_names");
    assert_equal(
        &rt,
        &out.as_str(),
        &" 2: bad include line 3: name given twice 0002 I+1 0020 K+1",
    );
}

/// The names of the information with those of its include files, which are read over one inclusion.
fn names_of<'a, 'f: 'a>(
    rt: &(impl AllocGlobal + Abort),
    info: &'a Info,
    files: &[&'f [u8]],
) -> Result<NamePool, InfoFault>
    ensures { IfOk result (λ names. AreNames names) }
{
    let mut included = Inclusion::of(rt.alloc(), info, 0)?;
    for place in 0..files.len() {
        assert_that_at(rt, place < included.includes().len(), &place);
        included = included.with(place, files[place])?;
    }
    included.names(rt.alloc())
}

#[test]
fn two_include_files_together(rt: HostRuntime) {
    let mut info = info_of(&rt, TWO);
    let refused = names_of(&rt, &info, &[b"K = 1", b"I = 2\nK = 3"]).err();
    let twice = InfoFault {
        line: 2,
        kind: InfoFaultKind::NameTwice,
    };
    assert_equal(&rt, &refused, &Some(twice));
    let names = names_of(&rt, &info, &[b"K = 1 ; one", b"J = 1\nI = 2 # two\nK = 1"]);
    info.set_names(names.expect(&rt, "names_of"));
    let mut out = String::new(rt.alloc());
    put_names(&mut out, &info).expect(&rt, "put_names");
    assert_equal(&rt, &out.as_str(), &" 0001 K+1 0002 I+1");
}

/// Files by name, from which each group takes the first with its name.
const FILES: [File<'static>; 5] = [
    File {
        name: "other",
        bytes: b"@",
    },
    File {
        name: "k",
        bytes: b"K = $10",
    },
    File {
        name: "k",
        bytes: b"@",
    },
    File {
        name: "j",
        bytes: b"J = $10\nK = 17",
    },
    File {
        name: "K",
        bytes: b"I = $10",
    },
];

/// A jump to $0010.
const JUMP: &[u8] = &[0x4C, 0x10, 0x00];

/// Groups over these files, and what a run over the jump gives after the header.
const LISTED: &[(&str, &str)] = &[
    (
        "ASMINC { FILE \"k\"; };",
        "K               := $0010\n\n        jmp     K\n",
    ),
    (
        "ASMINC { FILE \"K\"; };",
        "I               := $0010\n\n        jmp     I\n",
    ),
    (
        "ASMINC { FILE \"j\"; IGNOREUNKNOWN on; }; ASMINC { FILE \"k\"; };",
        "J               := $0010\nK               := $0011\n\n        jmp     J\n",
    ),
];

/// Groups that are refused. The order is that of the groups, not of the files, and the first refusal counts.
const REFUSED: &[(&str, &str)] = &[
    (
        "ASMINC { FILE \"k\"; }; ASMINC { FILE \"j\"; };",
        "include j:2: name given twice",
    ),
    (
        "ASMINC { FILE \"i\"; }; ASMINC { FILE \"other\"; };",
        "cannot read include i",
    ),
    (
        "ASMINC { FILE \"other\"; }; ASMINC { FILE \"i\"; };",
        "include other:1: bad include line",
    ),
    ("ASMINC { FILE \"i\"; }; FOO", "info:1: unknown group"),
];

#[test]
fn files_in_the_order_of_their_groups(rt: HostRuntime) {
    for (info, lines) in LISTED {
        let given = Given::at_1000(info, &FILES, JUMP);
        assert_that_at(&rt, given.gives(&rt, info).ends_with(lines), info);
        given.comes_back(&rt, info, 0x1000, JUMP);
    }
    for (info, message) in REFUSED {
        Given::at_1000(info, &FILES, JUMP).is_refused(&rt, message);
    }
}

/// A command line, and the message.
const UNREAD: &[(&[&str], &str)] = &[
    (NAMED, "da65: cannot read include k.inc\n"),
    (&[], "da65: no input file\n"),
];

/// A run that is refused for an include file reads nothing, and one without an input name looks at none.
#[test]
fn refused_before_reading(rt: HostRuntime) {
    for (words, message) in UNREAD {
        let given = Given {
            words,
            info: b"ASMINC { FILE \"k.inc\"; };",
            files: &[],
            input: JUMP,
        };
        let mut listing = Vec::new(rt.alloc());
        let mut messages = Vec::new(rt.alloc());
        let mut tape = Tape::new(JUMP, 1);
        let result = given.run_on(&rt, rt.alloc(), &mut tape, &mut listing, &mut messages);
        assert_equal(&rt, &result, &Ok(Status::Refused));
        assert_equal(&rt, &tape.reads(), &0);
        assert_that(&rt, listing.is_empty());
        assert_equal(&rt, &messages.as_slice(), &message.as_bytes());
    }
}

/// The longest file name that an information file can have.
#[test]
fn message_of_the_longest_name(rt: HostRuntime) {
    let name = "n".repeat(rt.alloc(), 255).expect(&rt, "repeat");
    let info = format!(in rt.alloc(); "ASMINC {{ FILE \"{name}\"; }};").expect(&rt, "format");
    let missing = format!(in rt.alloc(); "cannot read include {name}").expect(&rt, "format");
    Given::at_1000(&info, &[], JUMP).is_refused(&rt, &missing);
    let files = [File {
        name: &name,
        bytes: b"\n@",
    }];
    let refused = format!(in rt.alloc(); "include {name}:2: bad include line").expect(
        &rt, "format",
    );
    Given::at_1000(&info, &files, JUMP).is_refused(&rt, &refused);
}
