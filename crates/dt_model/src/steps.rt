//! The steps of a reading, each with the cause that comes where it fails.

ghost use Rattle.dt_model.specs.Steps.{Gives, found, need};

use crate::cause::{Cause, LineEnd};

/// A test that has to hold, or the cause.
pub fn need(holds: bool, cause: Cause) -> Result<(), LineEnd>
    ensures { Gives (λ u. u) result (need holds cause) }
{
    if holds {
        Ok(())
    } else {
        Err(LineEnd::Refused(cause))
    }
}

/// The value, or the cause where there is none.
pub fn found<T>(value: Option<T>, cause: Cause) -> Result<T, LineEnd>
    ensures { Gives (λ x. x) result (found value cause) }
{
    match value {
        None => Err(LineEnd::Refused(cause)),
        Some(x) => Ok(x),
    }
}
