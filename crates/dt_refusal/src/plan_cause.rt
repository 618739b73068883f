//! Why a plan is refused.

ghost use Rattle.std.specs.Prelude.{◌≡◌, ◌≤◌, ◌+◌, ◌++◌, length};
ghost use Rattle.dt_refusal.specs.PlanCauses.{plan_cause_arguments, plan_cause_name, plan_cause_text};

use crate::numbers::append_argument;
use dt_base::ShortText;

/// Why a job's plan is refused, in the order in which the limits are tested.
#[derive(Clone, Copy, Debug, PartialEq, Eq)]
pub enum PlanCause {
    /// Its parts may have more than 4,194,304 visits in all.
    TooManyVisits,
    /// The bounds of all nodes' words sum to more than 16,777,216.
    TooManyWords,
    /// It has more than 8,192 operations.
    TooManyOps,
    /// Its operations have more than 33,554,432 units in all.
    TooManyUnits,
    /// It has more than 1,048,576 events.
    TooManyEvents,
    /// A node, the least one, may hold more words than the machine's nodes have: the node, its bound, and what they have.
    OverCapacity(u32, u64, u64),
}

impl PlanCause {
    /// The cause's name and its arguments, each after a blank, as `OverCapacity 0 24 23`.
    pub fn text(&self) -> ShortText
        ensures text { result ≡ plan_cause_text self.now }
        ensures short { length result ≤ 76 }
    {
        let mut text = ShortText::new();
        text.append(name(self));
        append_arguments(&mut text, self);
        text
    }
}

fn name(cause: &PlanCause) -> &'static [u8]
    ensures name { result.now ≡ plan_cause_name cause.now }
    ensures short { length result.now ≤ 13 }
{
    match cause {
        PlanCause::TooManyVisits => b"TooManyVisits",
        PlanCause::TooManyWords => b"TooManyWords",
        PlanCause::TooManyOps => b"TooManyOps",
        PlanCause::TooManyUnits => b"TooManyUnits",
        PlanCause::TooManyEvents => b"TooManyEvents",
        PlanCause::OverCapacity(_, _, _) => b"OverCapacity",
    }
}

fn append_arguments(text: &mut ShortText, cause: &PlanCause)
    requires { length text.old ≤ 13 }
    ensures text { text.new ≡ text.old ++ plan_cause_arguments cause.now }
    ensures short { length text.new ≤ length text.old + 63 }
{
    match cause {
        PlanCause::OverCapacity(node, bound, capacity) => {
            append_argument(text, u64::from(*node));
            append_argument(text, *bound);
            append_argument(text, *capacity);
        }
        PlanCause::TooManyVisits
        | PlanCause::TooManyWords
        | PlanCause::TooManyOps
        | PlanCause::TooManyUnits
        | PlanCause::TooManyEvents => {}
    }
}
