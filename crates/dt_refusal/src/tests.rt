//! The texts of refusals, word for word.

use crate::{
    OrderCause, PlanCause, UnitFault, refused_line, refused_order, refused_plan, refused_too_long,
};
use dt_base::{Bytes, Name};
use dt_model::Cause;
use std::test::Fail;

const LINES: &str =
    "refused line 1: Syntax\nrefused line 2: BadByte 3\nrefused line 8: UnknownTensor D\nrefused line 4294967295: WrongExtent io 3 4\nrefused input: TooLong\n";

const PLANS: &str =
    "refused plan: TooManyVisits\nrefused plan: TooManyWords\nrefused plan: TooManyOps\nrefused plan: TooManyUnits\nrefused plan: TooManyEvents\nrefused plan: OverCapacity 0 24 23\nrefused plan: OverCapacity 4294967295 18446744073709551615 18446744073709551614\n";

const ORDERS: &str =
    "refused order: OrderRefused 5 Waits 5\nrefused order: OrderShort 9\nrefused order: OrderRefused 2 Finished 0\nrefused order: OrderRefused 1 Unknown 11\n";

#[test]
fn lines_and_inputs_are_refused_in_these_words(rt: HostRuntime) -> Result<(), Fail> {
    let causes = [
        (1, Cause::Syntax),
        (2, Cause::BadByte(3)),
        (8, Cause::UnknownTensor(Name::from_slice(b"D"))),
        (u32::MAX, Cause::WrongExtent(Name::from_slice(b"io"), 3, 4)),
    ];
    let mut out = Bytes::new(rt.alloc());
    for (line, cause) in &causes {
        out.append(refused_line(*line, cause).as_slice())?;
    }
    out.append(refused_too_long().as_slice())?;
    assert_eq!(rt; out.as_slice(), LINES.as_bytes());
    Ok(())
}

#[test]
fn plans_are_refused_in_these_words(rt: HostRuntime) -> Result<(), Fail> {
    let causes = [
        PlanCause::TooManyVisits,
        PlanCause::TooManyWords,
        PlanCause::TooManyOps,
        PlanCause::TooManyUnits,
        PlanCause::TooManyEvents,
        PlanCause::OverCapacity(0, 24, 23),
        PlanCause::OverCapacity(u32::MAX, u64::MAX, u64::MAX - 1),
    ];
    let mut out = Bytes::new(rt.alloc());
    for cause in &causes {
        out.append(refused_plan(cause).as_slice())?;
    }
    assert_eq!(rt; out.as_slice(), PLANS.as_bytes());
    Ok(())
}

#[test]
fn orders_are_refused_in_these_words(rt: HostRuntime) -> Result<(), Fail> {
    let causes = [
        OrderCause::OrderRefused(5, UnitFault::Waits(5)),
        OrderCause::OrderShort(9),
        OrderCause::OrderRefused(2, UnitFault::Finished(0)),
        OrderCause::OrderRefused(1, UnitFault::Unknown(11)),
    ];
    let mut out = Bytes::new(rt.alloc());
    for cause in &causes {
        out.append(refused_order(cause).as_slice())?;
    }
    assert_eq!(rt; out.as_slice(), ORDERS.as_bytes());
    Ok(())
}
