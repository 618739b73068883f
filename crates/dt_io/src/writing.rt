//! A whole text into a sink.

ghost use Rattle.std.specs.Prelude.{OnOk, OnErr};
ghost use Rattle.std.specs.Io.KnownBytes.{Appends};
ghost use Rattle.dt_io.specs.Faults.{HasCause, AppendsPrefix};

use crate::ends::Failed;
use crate::traits::Sink;

/// Writes all of the text. After `Failed` the sink has a front of it. Takes no memory.
pub fn write_all<W: Sink>(out: &mut W, text: &[u8]) -> Result<(), Failed>
    ensures ok { OnOk result (Appends (W.written out.old) (W.written out.new) text.now) }
    ensures failed { OnErr result (AppendsPrefix (W.written out.old) (W.written out.new) text.now) }
    ensures cause { HasCause (W.faults out.old) (W.faults out.new) result }
{
    let mut at = 0;
    while at < text.len() {
        let (_, rest) = text.split_at(at);
        match out.write(rest) {
            Ok(count) => at += count,
            Err(failed) => return Err(failed),
        }
    }
    Ok(())
}
