// Runs over memory, and over devices.
use crate::tests::asserts::{assert_equal_at, assert_same};
use crate::tests::command_lines::options_on;
use crate::tests::devices::ByBytes;
use da65::{File, RunFault, Status, Told, run};
use std::alloc::{AllocGlobal, Allocator};
use std::io::{Read, Write};
use std::process::Abort;
use stmt65::assemble;

/// What is written if a byte of the image is skipped.
pub const SKIPPED: &str =
    "da65: warning: skipped bytes, the listing does not assemble to the image\n";

/// What is written if a segment is entered again.
pub const AGAIN: &str = "da65: warning: a segment is entered again\n";

/// Three bytes, and their listing.
pub const THREE: &[u8] = &[0xA9, 0x01, 0x60];

pub const THREE_LISTING: &[u8] =
    b"; da65 listing\n\n        .setcpu \"6502\"\n\n        lda     #$01\n        rts\n";

/// A command line with the input's name.
pub const NAMED: &[&str] = &["image.bin"];

/// A command line with a start and the input's name.
pub const AT_1000: &[&str] = &["-S", "$1000", "image.bin"];

/// What a run is given: a command line, an information file, the files that it may include, and an input.
#[derive(Clone, Copy)]
pub struct Given<'a> {
    pub words: &'a [&'a str],
    pub info: &'a [u8],
    pub files: &'a [File<'a>],
    pub input: &'a [u8],
}

impl<'a> Given<'a> {
    /// An input with a name.
    pub fn named(input: &'a [u8]) -> Given<'a> {
        Given {
            words: NAMED,
            info: b"",
            files: &[],
            input,
        }
    }

    /// An input from $1000 on, with an information file and the files that it may include.
    pub fn at_1000(info: &'a str, files: &'a [File<'a>], input: &'a [u8]) -> Given<'a> {
        Given {
            words: AT_1000,
            info: info.as_bytes(),
            files,
            input,
        }
    }

    /// Runs in this memory, over these devices.
    pub fn run_on<A: Allocator + Copy, R: Read + Drop, W: Write + Drop, M: Write + Drop>(
        &self,
        rt: &(impl AllocGlobal + Abort),
        heap: A,
        input: R,
        listing: W,
        messages: M,
    ) -> Result<Status, RunFault> {
        let options = options_on(rt, self.words).expect(rt, "options_on");
        run(
            heap,
            &options,
            self.info,
            self.files,
            &mut Told::new(input),
            &mut Told::new(listing),
            &mut Told::new(messages),
        )
    }

    /// Runs in this memory. What is written has ample memory of its own.
    pub fn run_in<A: Allocator + Copy>(&self, rt: &(impl AllocGlobal + Abort), heap: A) -> Ran {
        let mut listing = Vec::new(rt.alloc());
        let mut messages = Vec::new(rt.alloc());
        let result = self.run_on(rt, heap, self.input, &mut listing, &mut messages);
        Ran {
            result,
            listing,
            messages,
        }
    }

    /// What it gives as text: its result, its messages and its listing. Writers that take one byte at each write get
    /// the same. `row` is the name of what is shown.
    pub fn gives(&self, rt: &(impl AllocGlobal + Abort), row: &str) -> String {
        let ran = self.run_in(rt, rt.alloc());
        let mut slow = Ran {
            result: Ok(Status::Done),
            listing: Vec::new(rt.alloc()),
            messages: Vec::new(rt.alloc()),
        };
        let listing = ByBytes::new(&mut slow.listing);
        let messages = ByBytes::new(&mut slow.messages);
        slow.result = self.run_on(rt, rt.alloc(), self.input, listing, messages);
        let found = ran.shown(rt);
        assert_same(rt, slow.shown(rt).as_bytes(), found.as_bytes(), &row);
        found
    }

    /// It is refused with this message.
    pub fn is_refused(&self, rt: &(impl AllocGlobal + Abort), message: &str) {
        let want = format!(in rt.alloc(); "Ok(Refused)\nda65: {message}\n").expect(rt, "format");
        let found = self.gives(rt, message);
        assert_same(rt, found.as_bytes(), want.as_bytes(), &message);
    }

    /// Its listing assembles from this start to this image.
    pub fn comes_back(&self, rt: &(impl AllocGlobal + Abort), row: &str, start: u16, image: &[u8]) {
        let ran = self.run_in(rt, rt.alloc());
        assert_equal_at(rt, &ran.result, &Ok(Status::Done), &row);
        let bytes = assemble(rt.alloc(), &ran.listing, start).expect(rt, "assemble");
        assert_same(rt, &bytes, image, &row);
    }
}

/// What a run returned, and what it wrote.
#[derive(Debug, Drop)]
pub struct Ran {
    pub result: Result<Status, RunFault>,
    pub listing: Vec<u8>,
    pub messages: Vec<u8>,
}

impl Ran {
    /// The result, the messages and the listing as text.
    pub fn shown(&self, rt: &(impl AllocGlobal + Abort)) -> String {
        let result = &self.result;
        let messages = str::from_utf8(&self.messages).unwrap_or("?");
        let listing = str::from_utf8(&self.listing).unwrap_or("?");
        format!(in rt.alloc(); "{result:?}\n{messages}{listing}").expect(rt, "format")
    }
}
