//! The job of a text.

ghost use Rattle.std.specs.Prelude.{◌≡◌, ◌<◌, ◌-◌, ◌^◌, [], length};
ghost use Rattle.dt_job.specs.Read.{IsRead, at_line, job_of, lines_from};

use crate::draft::Draft;
use crate::job::Job;
use crate::line_stop::LineStop;
use crate::lines::read_line;
use dt_model::Cause;
use dt_text::next_line;
use std::alloc::Global;

/// Why a text is no job: its first line that has a cause, from 1, and its first cause.
#[derive(Debug, Drop)]
pub enum JobEnd {
    Refused(u32, Cause),
    NoMemory,
}

/// The job of the text, each of whose parts is one of its statement, or its first line that has a cause.
pub fn read_job(alloc: Global, text: &[u8]) -> Result<Job, JobEnd>
    requires { length text.now < 2 ^ 32 - 1 }
    ensures { IsRead result (job_of text.now) }
{
    let mut draft = Draft::new(alloc);
    let mut at = 0u32;
    let mut number = 1u32;
    loop {
        let line = match next_line(text, at, number) {
            None => return finish(alloc, draft, number),
            Some(line) => line,
        };
        match read_line(alloc, &mut draft, text, line) {
            Ok(()) => {}
            Err(stop) => return Err(at_line(number, stop)),
        }
        at = line.after(text);
        number += 1;
    }
}

/// The job, where its lines are all there.
#[tactic(auto, unfolding(crate::specs::Read::lines_from))]
fn finish(alloc: Global, draft: Draft, number: u32) -> Result<Job, JobEnd>
    ensures { IsRead result (lines_from number draft []) }
{
    if !draft.phase().is_whole() {
        return Err(JobEnd::Refused(number, Cause::Unfinished));
    }
    match draft.into_job(alloc) {
        Ok(job) => Ok(job),
        Err(_no_memory) => Err(JobEnd::NoMemory),
    }
}

/// The end of the job at the line where the reading stops so.
fn at_line(number: u32, stop: LineStop) -> JobEnd
    ensures { result ≡ at_line number stop }
{
    match stop {
        LineStop::Refused(cause) => JobEnd::Refused(number, cause),
        LineStop::NoMemory => JobEnd::NoMemory,
    }
}
