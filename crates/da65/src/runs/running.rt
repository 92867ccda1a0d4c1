//! From an information file and an input to a listing and messages.

ghost use Rattle.std.specs.Prelude.{◌≡◌, ◌-◌, ◌<◌, ◌≤◌, Ok, false, IfErr, IfOk, IsErrOf, Result, length};
ghost use Rattle.da65.specs.Words.{InfoFault, InputCount, KeepsAt, KeepsIfRefused, MessagesCount, OfInput, OfRead, OutCount, ReadsFor, Reassembles, RefusesOrGivesUp, Tells, Took, Writes, WritesFew, done, files_seen, image_message, outcome_by, outcome_of, prepared, prepared_by, skips, warnings};
ghost use Rattle.map65.specs.Words.{AreBytes, TakesUpTo, read_limit};

use crate::listing::grouping::has_skipped;
use crate::listing::lines::{Lines, write_lines};
use crate::runs::files::File;
use crate::runs::messages::{Message, image_message, warnings};
use crate::runs::outcome::{RunFault, Status};
use crate::runs::preparing::{Stop, prepare};
use crate::runs::segment_reentry::is_entered_again;
use info65::{Info, InfoFault, Options, read_info};
use map65::{ImageFault, Map, Sink, Source, read_image, write_whole};
use std::alloc::{AllocError, Allocator};

/// Writes the messages of a run that ends with this status.
fn tell<M: Sink>(msgs: &mut M, messages: &[u8], status: Status) -> Result<Status, RunFault>
    requires { length messages.now ≤ 320 }
    ensures text { Tells result status messages.now (M.taken msgs.old) (M.taken msgs.new) }
    ensures few { WritesFew (M.taken msgs.old) (M.taken msgs.new) }
    ensures count { MessagesCount result (M.faults msgs.old) (M.faults msgs.new) }
{
    match write_whole(msgs, messages) {
        Ok(()) => Ok(status),
        Err(_) => Err(RunFault::Messages),
    }
}

/// Writes the message of an input that is refused, or gives up if its reading ran out of memory.
fn refuse_image<M: Sink>(msgs: &mut M, fault: ImageFault) -> Result<Status, RunFault>
    ensures text { RefusesOrGivesUp result (image_message fault) (M.taken msgs.old) (M.taken msgs.new) }
    ensures few { WritesFew (M.taken msgs.old) (M.taken msgs.new) }
    /// If reading the input fails, the run ends with Memory exactly if memory ran out.
    ensures memory { fault ≡ ImageFault.Memory → IsErrOf result RunFault.Memory }
    ensures only_memory { IsErrOf result RunFault.Memory → fault ≡ ImageFault.Memory }

    ensures count { MessagesCount result (M.faults msgs.old) (M.faults msgs.new) }
{
    match fault {
        ImageFault::Memory => Err(RunFault::Memory),
        _ => tell(msgs, image_message(fault), Status::Refused),
    }
}

/// The warnings that apply to the listing of an image.
fn warnings_of<A: Allocator + Copy>(alloc: A, map: &Map<'_, A>) -> Result<Message, AllocError>
    ensures { IfOk result (λ w. w.items ≡ warnings map.now) }
{
    Ok(warnings(has_skipped(map), is_entered_again(alloc, map)?))
}

/// Writes the listing of an image and then its warnings. Allocates nothing.
fn write_listing<A: Allocator, W: Sink, M: Sink>(
    map: &Map<'_, A>,
    messages: &[u8],
    out: &mut W,
    msgs: &mut M,
) -> Result<Status, RunFault>
    requires are_bytes { AreBytes map.now.image.bytes }
    requires messages { messages.now ≡ warnings map.now }
    requires few { length messages.now ≤ 320 }
    ensures text { Writes result (done map.now) (W.taken out.old) (W.taken out.new) (M.taken msgs.old) (M.taken msgs.new) }
    ensures few { WritesFew (M.taken msgs.old) (M.taken msgs.new) }
    ensures reassembles { IfOk result (λ status. skips map.now ≡ false → Took map.now.image (W.taken out.old) (W.taken out.new)) }
    ensures out_count { OutCount result (W.faults out.old) (W.faults out.new) }
    ensures messages_count { MessagesCount result (M.faults msgs.old) (M.faults msgs.new) }
{
    match write_lines(Lines::new(map.info(), map.image(), map), out) {
        Ok(()) => tell(msgs, messages, Status::Done),
        Err(_) => Err(RunFault::Write),
    }
}

/// Lists the input under an information file that was accepted, with the names of its include files.
fn list_input<A: Allocator + Copy, R: Source, W: Sink, M: Sink>(
    alloc: A,
    info: &Info<A>,
    input: &mut R,
    out: &mut W,
    msgs: &mut M,
) -> Result<Status, RunFault>
    ensures answer { OfInput (R.faults input.old) (R.faults input.new) (R.left input.old)
        (λ bytes failed. Writes result (outcome_by (Ok info.now) bytes failed)
        (W.taken out.old) (W.taken out.new) (M.taken msgs.old) (M.taken msgs.new)) }
    ensures reassembles { OfInput (R.faults input.old) (R.faults input.new) (R.left input.old)
        (λ bytes failed. Reassembles result (Ok info.now) bytes failed
        (W.taken out.old) (W.taken out.new)) }
    ensures memory { KeepsAt RunFault.Memory result (W.taken out.old) (W.taken out.new) }
    ensures memory_messages { KeepsAt RunFault.Memory result (M.taken msgs.old) (M.taken msgs.new) }
    ensures write { KeepsAt RunFault.Write result (M.taken msgs.old) (M.taken msgs.new) }
    ensures refused { KeepsIfRefused result (W.taken out.old) (W.taken out.new) }
    ensures few { WritesFew (M.taken msgs.old) (M.taken msgs.new) }
    ensures reads { TakesUpTo (read_limit info.now.settings) (R.left input.old) (R.left input.new) }
    ensures out_count { OutCount result (W.faults out.old) (W.faults out.new) }
    ensures messages_count { MessagesCount result (M.faults msgs.old) (M.faults msgs.new) }
    ensures input_count { InputCount result (R.faults input.old) (R.faults input.new) }
{
    let image = match read_image(alloc, info, input) {
        Ok(image) => image,
        Err(fault) => return refuse_image(msgs, fault),
    };
    let map = match Map::build(alloc, info, &image) {
        Ok(map) => map,
        Err(_) => return Err(RunFault::Memory),
    };
    let Ok(warnings) = warnings_of(alloc, &map) else {
        return Err(RunFault::Memory);
    };
    write_listing(&map, warnings.as_slice(), out, msgs)
}

/// Lists the input on `out` as source for ca65. If it is refused, the reason goes to `msgs`.
///
/// The options of the command line and the information file `info` give the settings; no information file
/// is the same as an empty one. Each of its groups ASMINC includes the first of `files` that has the group's
/// file name, in the order of the groups; the other files are not read. A run is refused, with one message
/// and no listing, for the first of these reasons: the information file has a fault; there is no input name;
/// an include file is not among `files` or has a fault; a read fails; the input has fewer
/// than INPUTSIZE bytes after the first INPUTOFFS; it is empty; it is too large (more than 65,536 bytes,
/// or it extends past $FFFF). Help and version are ignored.
///
/// The type of the RANGE that has an address says how its byte is listed: as code, where there is none; on one line
/// with its neighbours of the same type, up to 8 bytes, 16 bytes of text, 4 words or 2 double words; in a table of
/// addresses or return addresses one entry on a line; or, with SKIP, not at all. If a byte of the image is skipped, a
/// warning follows the listing on `msgs`, and another one if a segment is entered again.
///
/// After INPUTOFFS bytes at most INPUTSIZE bytes are read, or 65,537 without a size. Nothing is read if the
/// run is refused for its information file, its input name or an include file. All memory is allocated before the
/// first byte is written, so `Memory` means that nothing was written. If a write fails or takes no byte, it is not
/// tried again, and the result is `Write` for the listing and `Messages` for a message. The listing is whole when a
/// warning is written. At most 320 bytes of messages are written.
pub fn run<A: Allocator + Copy, N: Allocator, R: Source, W: Sink, M: Sink>(
    alloc: A,
    options: &Options<N>,
    info: &[u8],
    files: &[File<'_>],
    input: &mut R,
    out: &mut W,
    msgs: &mut M,
) -> Result<Status, RunFault>
    /// After Done or Refused, the listing, the messages and the status are those of the definition for the options,
    /// the bytes of the information file, the include files and the input, and whether the reader failed. The
    /// listing has its segments, comments and columns. The messages are a refusal, or the warnings of skipped bytes
    /// and of a segment that is entered again.
    ///
    /// After a failed write of the listing, a prefix of it has been written and no message. After a failed write of
    /// a message, the whole listing and a prefix of the messages have been written, and there was something to
    /// write.
    ensures answer { OfInput (R.faults input.old) (R.faults input.new) (R.left input.old)
        (λ bytes failed. Writes result
        (outcome_of options.now info.now (files_seen files.now) bytes failed)
        (W.taken out.old) (W.taken out.new) (M.taken msgs.old) (M.taken msgs.new)) }

    /// If the result is Done, the settings and the input give an image. If no range skips a byte of it, the text
    /// that was written assembles, from the image's start, to the image's bytes, both as a listing and as a repair,
    /// which is what `as65` and `name65` read.
    ensures reassembles { OfInput (R.faults input.old) (R.faults input.new) (R.left input.old)
        (λ bytes failed. Reassembles result (prepared options.now info.now (files_seen files.now))
        bytes failed (W.taken out.old) (W.taken out.new)) }

    /// After Memory neither writer has taken anything. After a failed write of the listing no message has been
    /// written. After a refusal no listing has been written. This holds for every reader.
    ensures memory { KeepsAt RunFault.Memory result (W.taken out.old) (W.taken out.new) }
    ensures memory_messages { KeepsAt RunFault.Memory result (M.taken msgs.old) (M.taken msgs.new) }
    ensures write { KeepsAt RunFault.Write result (M.taken msgs.old) (M.taken msgs.new) }
    ensures refused { KeepsIfRefused result (W.taken out.old) (W.taken out.new) }
    /// At most 320 bytes of messages are written.
    ensures few { WritesFew (M.taken msgs.old) (M.taken msgs.new) }
    /// At most INPUTOFFS plus INPUTSIZE bytes are read, or without a size INPUTOFFS plus 65,537. The input is not
    /// used if the information file or an include file is refused, or no input is named.
    ensures reads { ReadsFor (prepared options.now info.now (files_seen files.now)) (R.left input.old) (R.left input.new) }
    ensures unread { IfErr (prepared options.now info.now (files_seen files.now)) (λ _. input.new ≡ input.old) }

    /// The count of failed writes of the listing rises by one exactly when the result is Write, that of the
    /// messages exactly when it is Messages. At most one read fails, and none if the result is Done, Write or
    /// Memory.
    ensures out_count { OutCount result (W.faults out.old) (W.faults out.new) }
    ensures messages_count { MessagesCount result (M.faults msgs.old) (M.faults msgs.new) }
    ensures input_count { InputCount result (R.faults input.old) (R.faults input.new) }
{
    let read = read_info(alloc, options, info);
    run_read(alloc, read, files, input, out, msgs)
}

/// Does what [`run`] does for an information file that `info65::read_info` has read or refused.
pub fn run_read<A: Allocator + Copy, R: Source, W: Sink, M: Sink>(
    alloc: A,
    read: Result<Info<A>, InfoFault>,
    files: &[File<'_>],
    input: &mut R,
    out: &mut W,
    msgs: &mut M,
) -> Result<Status, RunFault>
    /// As in `run`.
    ensures answer { OfRead read (λ defined. OfInput (R.faults input.old) (R.faults input.new)
        (R.left input.old) (λ bytes failed. Writes result
        (outcome_by (prepared_by defined (files_seen files.now)) bytes failed)
        (W.taken out.old) (W.taken out.new) (M.taken msgs.old) (M.taken msgs.new))) }
    ensures reassembles { OfRead read (λ defined. OfInput (R.faults input.old) (R.faults input.new)
        (R.left input.old) (λ bytes failed.
        Reassembles result (prepared_by defined (files_seen files.now)) bytes failed
        (W.taken out.old) (W.taken out.new))) }
    ensures memory { KeepsAt RunFault.Memory result (W.taken out.old) (W.taken out.new) }
    ensures memory_messages { KeepsAt RunFault.Memory result (M.taken msgs.old) (M.taken msgs.new) }
    ensures write { KeepsAt RunFault.Write result (M.taken msgs.old) (M.taken msgs.new) }
    ensures refused { KeepsIfRefused result (W.taken out.old) (W.taken out.new) }
    ensures few { WritesFew (M.taken msgs.old) (M.taken msgs.new) }
    ensures reads { OfRead read (λ defined. ReadsFor (prepared_by defined (files_seen files.now)) (R.left input.old) (R.left input.new)) }
    ensures unread { OfRead read (λ defined. IfErr (prepared_by defined (files_seen files.now)) (λ _. input.new ≡ input.old)) }
    ensures out_count { OutCount result (W.faults out.old) (W.faults out.new) }
    ensures messages_count { MessagesCount result (M.faults msgs.old) (M.faults msgs.new) }
    ensures input_count { InputCount result (R.faults input.old) (R.faults input.new) }
{
    match prepare(alloc, read, files) {
        Ok(info) => list_input(alloc, &info, input, out, msgs),
        Err(Stop::Refused(message)) => tell(msgs, message.as_slice(), Status::Refused),
        Err(Stop::Memory) => Err(RunFault::Memory),
    }
}
