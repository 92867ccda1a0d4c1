//! A run whose output is buffered, and whose messages wait for the end of the listing.

ghost use Rattle.std.specs.Prelude.{◌≡◌, ◌-◌, ◌<◌, [], Some, IfErr, IsErrOf, Result};
ghost use Rattle.std.specs.Io.KnownBytes.{Keeps};
ghost use Rattle.info65.specs.declared.fault.InfoFault.{InfoFault};
ghost use Rattle.map65.specs.Words.{has_failed};
ghost use Rattle.da65.specs.Words.{MessagesCount, OfBytes, OfRead, OutCount, ReadsFor, Reassembles, files_seen, outcome_by, prepared_by};
ghost use Rattle.da65_cli.specs.Code.Buffered.{buffered_out, buffered_taken};
ghost use Rattle.da65_cli.specs.Delivery.{Delivers, InputCount};
ghost use Rattle.da65_cli.specs.Code.Reporting.{HasRoom, FlushesThenReports, ReportsOutCount};

use crate::buffered::Buffered;
use crate::message_buffer::MessageBuffer;
use da65::{File, Info, InfoFault, RunFault, Sink, Source, Status, run_read, write_whole};
use std::alloc::Allocator;

/// How a listing ended, and the output that it was written on.
pub struct Listed<W> {
    pub output: W,
    pub result: Result<Status, RunFault>,
}

/// Flushes the listing and then passes the messages on, unless the run has given up before.
fn flush_then_report<W: Sink, M: Sink>(
    was: Result<Status, RunFault>,
    buffer: &mut Buffered<W>,
    messages: &[u8],
    errors: &mut M,
) -> Result<Status, RunFault>
    requires { HasRoom was }
    ensures text { FlushesThenReports was result
        (buffered_taken W.taken buffer.old) (W.taken (buffered_out buffer.new))
        messages.now (M.taken errors.old) (M.taken errors.new) }
    ensures out_count { ReportsOutCount was result
        (W.faults (buffered_out buffer.old)) (W.faults (buffered_out buffer.new)) }
    ensures errors_count { MessagesCount result (M.faults errors.old) (M.faults errors.new) }
{
    let status = was?;
    if buffer.flush().is_err() {
        return Err(RunFault::Write);
    }
    match write_whole(errors, messages) {
        Ok(()) => Ok(status),
        Err(_) => Err(RunFault::Messages),
    }
}

/// Lists the input on the output, under an information file that `read_info` has read or refused, and writes the
/// messages on `errors` once the whole listing is on the output.
///
/// The listing goes to the output 8 KiB at a time. If a write of it fails, no message is written. If a
/// write of a message fails, the listing is whole. No write that failed is tried again.
pub fn run_read_buffered<A: Allocator + Copy, R: Source, W: Sink, M: Sink>(
    alloc: A,
    read: Result<Info<A>, InfoFault>,
    files: &[File<'_>],
    input: &mut R,
    output: W,
    errors: &mut M,
) -> Listed<W>
    /// If the result is Ok, the output has exactly the listing and standard error exactly the messages. If memory
    /// runs out, both are empty.
    ///
    /// If a write of the listing fails, or its flush, the output has a prefix of the listing and standard error is
    /// empty. If a write of a message fails, the output has the whole listing and standard error a prefix of the
    /// messages.
    ///
    /// The clause is about an output that starts empty, devices that report their bytes, and an input whose count of
    /// failures is below 2^64 - 1.
    ensures answer { OfRead read (λ defined. W.taken output ≡ Some [] →
        OfBytes (R.faults input.old) (R.left input.old) (λ bytes.
        Delivers result.result
        (outcome_by (prepared_by defined (files_seen files.now)) bytes
        (has_failed (R.faults input.old) (R.faults input.new)))
        (W.taken result.output) (M.taken errors.old) (M.taken errors.new))) }

    /// If the result is Done and no byte of the image is skipped, the text on the output assembles to the image.
    /// The premises are those of `answer`.
    ensures reassembles { OfRead read (λ defined. W.taken output ≡ Some [] →
        OfBytes (R.faults input.old) (R.left input.old) (λ bytes.
        Reassembles result.result (prepared_by defined (files_seen files.now)) bytes
        (has_failed (R.faults input.old) (R.faults input.new))
        (Some []) (W.taken result.output))) }

    /// After Write or Memory nothing has been written to standard error. This holds for every device.
    ensures memory { IsErrOf result.result RunFault.Memory →
        Keeps (M.taken errors.old) (M.taken errors.new) }
    ensures write { IsErrOf result.result RunFault.Write → Keeps (M.taken errors.old) (M.taken errors.new) }
    /// At most the bytes that `run` reads are read. The input is not used if the run is refused before it.
    ensures reads { OfRead read (λ defined.
        ReadsFor (prepared_by defined (files_seen files.now)) (R.left input.old) (R.left input.new)) }
    ensures unread { OfRead read (λ defined.
        IfErr (prepared_by defined (files_seen files.now)) (λ _. input.new ≡ input.old)) }

    /// The output, standard error and the input fail at most once each. The result is Write exactly when a write of
    /// the output failed, and Messages exactly when a write of standard error failed. If it is Done or Memory, no
    /// read failed.
    ensures out_count { OutCount result.result (W.faults output) (W.faults result.output) }
    ensures errors_count { MessagesCount result.result (M.faults errors.old) (M.faults errors.new) }
    ensures input_count { InputCount result.result (R.faults input.old) (R.faults input.new) }
{
    let mut buffer = Buffered::new(output);
    let mut waiting = MessageBuffer::new();
    let was = run_read(alloc, read, files, input, &mut buffer, &mut waiting);
    let result = flush_then_report(was, &mut buffer, waiting.as_slice(), errors);
    Listed {
        output: buffer.into_out(),
        result,
    }
}
