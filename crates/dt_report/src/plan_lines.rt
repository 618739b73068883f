//! The text of a plan, line after line.

ghost use Rattle.std.specs.Prelude.{◌≡◌, ◌++◌, length, IfOk, OnOk};
ghost use Rattle.std.specs.Fmt.{decimal};
ghost use Rattle.std.specs.List.{flat_map};
ghost use Rattle.dt_plan.specs.Plans.{units_in};
ghost use Rattle.dt_report.specs.PlanText.{bound_line, bounds_text, event_line, head_text, listing_text, plan_text_of, sizes_line, traffic_line};

use crate::op_lines::put_ops;
use crate::stmt_lines::put_parts;
use dt_base::{Bytes, Lines, NoMemory};
use dt_events::Events;
use dt_plan::{Part, Plan};
use std::alloc::Global;

/// The text of a plan with its events: sizes, statements, operations, events, the nodes' bounds in words, and traffic in
/// positions. `parts` are the plan's statements, and `heads` their texts, one for each. The time is linear in the text.
#[tactic(auto, unfolding(crate::specs::PlanText::plan_text_of))]
pub fn plan_text(
    alloc: Global,
    plan: &Plan,
    events: &Events,
    parts: &[Part],
    heads: &Lines,
) -> Result<Bytes, NoMemory>
    requires { length heads.now ≡ length parts.now }
    ensures { IfOk result (λ text. text ≡ plan_text_of plan.now events.now parts.now heads.now) }
{
    let mut out = Bytes::new(alloc);
    put_head(&mut out, plan, events)?;
    put_parts(alloc, &mut out, parts, heads.as_slice())?;
    put_listing(&mut out, plan, events, parts)?;
    Ok(out)
}

fn put_head(out: &mut Bytes, plan: &Plan, events: &Events) -> Result<(), NoMemory>
    ensures { OnOk result (out.new ≡ out.old ++ head_text plan.now events.now) }
{
    out.append(b"distal plan")?;
    out.append(b"\n")?;
    put_sizes_of(out, plan, events)
}

fn put_sizes_of(out: &mut Bytes, plan: &Plan, events: &Events) -> Result<(), NoMemory>
    ensures { OnOk result (out.new ≡ out.old ++ sizes_line plan.now.nodes (length plan.now.ops) (length events.now) (units_in plan.now.ops)) }
{
    let ops = plan.ops().len();
    let events = events.pairs().len();
    put_sizes(out, plan.nodes(), ops, events, plan.units())
}

fn put_sizes(
    out: &mut Bytes,
    nodes: u32,
    ops: usize,
    events: usize,
    units: u64,
) -> Result<(), NoMemory>
    ensures { OnOk result (out.new ≡ out.old ++ sizes_line nodes ops events units) }
{
    put_number(out, b"nodes ", u64::from(nodes))?;
    put_number(out, b" ops ", ops as u64)?;
    put_number(out, b" events ", events as u64)?;
    put_number(out, b" units ", units)?;
    out.append(b"\n")
}

/// Puts these words and a number in decimal.
fn put_number(out: &mut Bytes, words: &[u8], number: u64) -> Result<(), NoMemory>
    ensures { OnOk result (out.new ≡ out.old ++ (words.now ++ decimal number)) }
{
    out.append(words)?;
    out.append_number(number)
}

fn put_listing(
    out: &mut Bytes,
    plan: &Plan,
    events: &Events,
    parts: &[Part],
) -> Result<(), NoMemory>
    ensures { OnOk result (out.new ≡ out.old ++ listing_text plan.now events.now parts.now) }
{
    put_ops(out, parts, plan.ops())?;
    put_events(out, events.pairs())?;
    put_bounds(out, plan)?;
    put_traffic_of(out, plan)
}

fn put_events(out: &mut Bytes, pairs: &[(u32, u32)]) -> Result<(), NoMemory>
    ensures { OnOk result (out.new ≡ out.old ++ flat_map event_line pairs.now) }
{
    for pair in pairs {
        put_event(out, *pair)?;
    }
    Ok(())
}

fn put_event(out: &mut Bytes, pair: (u32, u32)) -> Result<(), NoMemory>
    ensures { OnOk result (out.new ≡ out.old ++ event_line pair) }
{
    out.append(b"event ")?;
    out.append_number(pair.0)?;
    out.append(b" ")?;
    out.append_number(pair.1)?;
    out.append(b"\n")
}

fn put_bounds(out: &mut Bytes, plan: &Plan) -> Result<(), NoMemory>
    ensures { OnOk result (out.new ≡ out.old ++ bounds_text plan.now) }
{
    for node in 0..plan.nodes() {
        put_bound(out, node, plan.bound(node))?;
    }
    Ok(())
}

fn put_bound(out: &mut Bytes, node: u32, words: u64) -> Result<(), NoMemory>
    ensures { OnOk result (out.new ≡ out.old ++ bound_line node words) }
{
    out.append(b"bound ")?;
    out.append_number(node)?;
    out.append(b" ")?;
    out.append_number(words)?;
    out.append(b"\n")
}

fn put_traffic_of(out: &mut Bytes, plan: &Plan) -> Result<(), NoMemory>
    ensures { OnOk result (out.new ≡ out.old ++ traffic_line plan.now.traffic.local plan.now.traffic.group plan.now.traffic.across) }
{
    let (local, group, across) = plan.traffic();
    put_traffic(out, local, group, across)
}

fn put_traffic(out: &mut Bytes, local: u64, group: u64, across: u64) -> Result<(), NoMemory>
    ensures { OnOk result (out.new ≡ out.old ++ traffic_line local group across) }
{
    put_number(out, b"traffic local ", local)?;
    put_number(out, b" group ", group)?;
    put_number(out, b" across ", across)?;
    out.append(b"\n")
}
