//! Commands that change a schedule, and the law that each keeps.

ghost use Rattle.std.specs.Prelude.{◌≡◌, IfOk};
ghost use Rattle.dt_nest.specs.Commands.{KeepsSum};

use crate::parts::SchedParts;
use crate::schedules::Sched;
use dt_model::Cause;
use std::alloc::Global;

/// Why a command was not done, with the schedule as it was.
#[derive(Debug, Drop)]
pub enum RewriteEnd {
    Illegal(Sched, Cause),
    NoMemory(Sched),
}

/// A command that changes a schedule. `Illegal` comes exactly where the command is illegal, with its first cause.
pub trait Rewrite: Sized + Drop {
    ghost use Rattle.std.specs.Prelude.{◌≡◌, ◌<◌, ◌^◌, None, IfOk, IfErr, length};
    ghost use Rattle.dt_nest.specs.Schedule.{Schedule, seen};
    ghost use Rattle.dt_nest.specs.Lawful.{IsLawful};
    ghost use Rattle.dt_nest.specs.Commands.{Answers, Keeps, Rule};

    /// When the command may be called and is legal, what it makes, and for which tensors and machines it is.
    ghost rule: { Self → Rule };

    /// The first cause against the command.
    fn first_cause(&self, parts: &SchedParts) -> Option<Cause>
        requires lawful { IsLawful (seen parts.now) }
        requires can { (rule self.now).can (seen parts.now) }
        ensures { result ≡ (rule self.now).cause (seen parts.now) };

    /// The parts after a command against which no cause is. Where memory runs out, they come back as they were.
    fn applied(self, alloc: Global, parts: SchedParts) -> Result<SchedParts, SchedParts>
        requires lawful { IsLawful (seen parts) }
        requires can { (rule self).can (seen parts) }
        requires legal { (rule self).cause (seen parts) ≡ None }
        ensures ok { IfOk result (λ p. seen p ≡ (rule self).effect (seen parts)) }
        ensures few { IfOk result (λ p. length (seen p).names < 2 ^ 32) }
        ensures err { IfErr result (λ p. seen p ≡ seen parts) };

    /// A legal command keeps lawfulness, the sum at every index, the accesses, what fits, and the machine's loops.
    ghost keeps: { (c : Self) (s : Schedule) → IsLawful s → (rule c).can s → (rule c).cause s ≡ None → Keeps (rule c) s };

    /// Tests the command, and does it where no cause is against it. A refusal hands the schedule back as it was.
    final fn apply(self, alloc: Global, sched: Sched) -> Result<Sched, RewriteEnd>
        requires { (rule self).can sched }
        ensures { Answers ((rule self).cause sched) ((rule self).effect sched) sched result }
    {
        if let Some(cause) = self.first_cause(sched.parts()) {
            return Err(RewriteEnd::Illegal(sched, cause));
        }
        match self.applied(alloc, sched.into_parts()) {
            Ok(parts) => Ok(Sched::from_parts(parts)),
            Err(parts) => Err(RewriteEnd::NoMemory(Sched::from_parts(parts))),
        }
    }
}

/// Does any command. What the schedule adds at an index stays.
pub fn rewritten<R: Rewrite>(command: R, alloc: Global, sched: Sched) -> Result<Sched, RewriteEnd>
    requires { (R.rule command).can sched }
    ensures { IfOk result (λ s. KeepsSum sched s) }
{
    let _lawful = sched.parts();
    command.apply(alloc, sched)
}
