//! The top call.

ghost use Rattle.std.specs.Prelude.{◌≡◌, ◌≢◌, ◌≤◌, map, string_bytes, IfSome, None};
ghost use Rattle.std.specs.Io.KnownBytes.{Appends};
ghost use Rattle.dt_io.specs.Faults.{Rose, AppendsPrefix};
ghost use Rattle.dt_run.specs.Clauses.{Answers, IfTold, Wrote};
ghost use Rattle.dt_run.specs.EveryOrder.{HaveOrders};
ghost use Rattle.dt_run.specs.Forms.{asked_bytes, form_of as form_in};

use crate::answering::{Answer, answer_to};
use crate::form::form_of;
use crate::status::Status;
use dt_io::{ReadEnd, Sink, Source, read_all, write_all};
use dt_refusal::refused_too_long;
use std::alloc::Global;

/// The most bytes of an input.
const INPUT_LIMIT: u32 = 16_777_216;

/// Answers the words: `run` reads a job from the source, runs it, and writes the answer to the sink, at `Done` what the
/// outputs print, and at `Refused` the first line that has a cause.
pub fn distal<R: Source, W: Sink>(
    alloc: Global,
    words: &[String],
    input: &mut R,
    out: &mut W,
) -> Status
    // What is written where the words are answered.
    ensures done { result ≡ Status.Done → IfTold (map string_bytes words.now) (R.left input.old) (λ o. Answers Status.Done o (W.written out.old) (W.written out.new)) }
    ensures refused { result ≡ Status.Refused → IfTold (map string_bytes words.now) (R.left input.old) (λ o. Answers Status.Refused o (W.written out.old) (W.written out.new)) }

    // If a job is answered, every order that its plan's events allow is defined, within the bounds, and ends in the sums' values.
    ensures orders { result ≡ Status.Done → IfSome (asked_bytes (form_in (map string_bytes words.now)) (R.left input.old)) HaveOrders }

    // When each other status comes.
    ensures faults_words { result ≡ Status.BadWords → form_in (map string_bytes words.now) ≡ None }
    ensures faults_read { result ≡ Status.ReadFault → Rose (R.faults input.old) (R.faults input.new) }
    ensures faults_write { result ≡ Status.WriteFault → Rose (W.faults out.old) (W.faults out.new) }
    ensures faults_memory { result ≡ Status.NoMemory → form_in (map string_bytes words.now) ≢ None }

    // Then nothing is read or written, nothing is written, or a front of the text is.
    ensures unread { result ≡ Status.BadWords → input.new ≡ input.old }
    ensures unwritten_words { result ≡ Status.BadWords → out.new ≡ out.old }
    ensures unwritten_read { result ≡ Status.ReadFault → out.new ≡ out.old }
    ensures unwritten_memory { result ≡ Status.NoMemory → out.new ≡ out.old }
    ensures front { result ≡ Status.WriteFault → IfTold (map string_bytes words.now) (R.left input.old) (λ o. AppendsPrefix (W.written out.old) (W.written out.new) o.text) }

    // Without a fault and with memory the status is the outcome's; at words of no form it is so whatever happens.
    ensures complete_words { form_in (map string_bytes words.now) ≡ None → result ≡ Status.BadWords }
    ensures complete { ¬ Rose (R.faults input.old) (R.faults input.new) → ¬ Rose (W.faults out.old) (W.faults out.new) → result ≢ Status.NoMemory
        → IfTold (map string_bytes words.now) (R.left input.old) (λ o. o.status ≡ result) }
{
    let form = match form_of(words) {
        None => return Status::BadWords,
        Some(form) => form,
    };
    let bytes = match read_all(alloc, input, INPUT_LIMIT) {
        Ok(bytes) => bytes,
        Err(ReadEnd::Failed) => return Status::ReadFault,
        Err(ReadEnd::NoMemory) => return Status::NoMemory,
        Err(ReadEnd::TooLong) => return write(out, Status::Refused, refused_too_long().as_slice()),
    };
    match answer_to(alloc, form, bytes.as_slice()) {
        Ok(Answer::Text(text)) => write(out, Status::Done, text.as_slice()),
        Ok(Answer::Refusal(text)) => write(out, Status::Refused, text.as_slice()),
        Err(_) => Status::NoMemory,
    }
}

/// Writes the text. The status is the one that is wanted, or WriteFault.
fn write<W: Sink>(out: &mut W, wanted: Status, text: &[u8]) -> Status
    ensures { Wrote W.written W.faults out.old out.new wanted text.now result }
{
    match write_all(out, text) {
        Ok(()) => wanted,
        Err(_) => Status::WriteFault,
    }
}
