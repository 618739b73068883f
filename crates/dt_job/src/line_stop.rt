//! Why the reading of a job stops at a line.

ghost use Rattle.std.specs.Prelude.{◌≡◌};
ghost use Rattle.dt_job.specs.Stops.{stop_of, stop_of_pack};
ghost use Rattle.dt_job.specs.declared.line_stop.LineStop.TheVariants.{NoMemory as StopNoMemory};

use dt_base::NoMemory;
use dt_model::{Cause, LineEnd};
use dt_tensor::PackEnd;

/// Why the reading of a job stops at a line: the line has a cause, which is its first one, or memory has run out.
#[derive(Debug, Drop)]
pub enum LineStop {
    Refused(Cause),
    NoMemory,
}

impl From<LineEnd> for LineStop {
    ghost from_gives = { λ end stop. stop ≡ stop_of end };

    fn from(end: LineEnd) -> LineStop {
        match end {
            LineEnd::Refused(cause) => LineStop::Refused(cause),
            LineEnd::NoMemory => LineStop::NoMemory,
        }
    }
}

impl From<NoMemory> for LineStop {
    ghost from_gives = { λ _ stop. stop ≡ StopNoMemory };

    fn from(_error: NoMemory) -> LineStop {
        LineStop::NoMemory
    }
}

impl From<PackEnd> for LineStop {
    ghost from_gives = { λ end stop. stop ≡ stop_of_pack end };

    fn from(end: PackEnd) -> LineStop {
        match end {
            PackEnd::OutOfShape(entry) => LineStop::Refused(Cause::OutOfShape(entry)),
            PackEnd::Repeated(entry) => LineStop::Refused(Cause::Repeated(entry)),
            PackEnd::TooManyStored => LineStop::Refused(Cause::TooManyStored),
            PackEnd::NoMemory => LineStop::NoMemory,
        }
    }
}
