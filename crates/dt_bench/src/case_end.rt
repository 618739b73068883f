//! Why a case has no number.

use dt_base::NoMemory;
use dt_job::JobEnd;
use dt_model::LineEnd;
use std::alloc::{AllocError, AllocFailed};

/// Why a number wasn't found.
#[derive(Drop)]
pub enum CaseEnd {
    Refused,
    NoMemory,
}

impl From<NoMemory> for CaseEnd {
    fn from(_: NoMemory) -> CaseEnd {
        CaseEnd::NoMemory
    }
}

impl From<LineEnd> for CaseEnd {
    fn from(_: LineEnd) -> CaseEnd {
        CaseEnd::Refused
    }
}

impl From<JobEnd> for CaseEnd {
    fn from(_: JobEnd) -> CaseEnd {
        CaseEnd::Refused
    }
}

impl From<AllocError> for CaseEnd {
    fn from(_: AllocError) -> CaseEnd {
        CaseEnd::NoMemory
    }
}

impl<T: Drop> From<AllocFailed<T>> for CaseEnd {
    fn from(_: AllocFailed<T>) -> CaseEnd {
        CaseEnd::NoMemory
    }
}
