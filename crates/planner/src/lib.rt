// The slot planner (document 02, wish 4): from four numbers the table of a cellar in which each probe has a slot of its own. The contract
// of `plan` equates the answer, and every lent byte afterwards, with the call's definition in slot_plan's specs/Plan.antt, for all numbers;
// and it says that the table written is accepted, and what its schedule is.
#![tactic(auto)]

ghost use Rattle.std.specs.Prelude.{◌≡◌, map, ◌+◌, ◌*◌, ◌≤◌, ◌<◌, length, take};
ghost use Rattle.model.specs.declared.Verdict.TheVariants.{Accepted, Refused};
ghost use Rattle.model.specs.Lists.{below, each};
ghost use Rattle.model.specs.Bytes.{location_bytes, arc_bytes, component_bytes, table_bytes};
ghost use Rattle.slot_plan.specs.Plan.{in_range, width, begins, hear_to, plannable, Fits, until, sending_arc, hearing_arc, resting_arc, hear_arc, probe, hub, plan_table, plan_call};
ghost use Rattle.slot_plan.specs.PlanSchedule.{PlanAccepted};
ghost use Rattle.planner.specs.Put.{Put, table_head, component_head, edge_head, low_bytes};

use calls::Called;
use model::{Verdict, layout};
use slot_plan::Slots;

fn in_range(number: u32, most: u32) -> bool
    ensures { result ≡ in_range most number }
{
    if number < 1 {
        return false;
    }
    number <= most
}

// Whether there is a plan. The ranges are tried first: what is multiplied then is at most 7 and 3,000.
fn can_plan(slots: Slots) -> bool
    ensures { result ≡ plannable slots }
{
    if !in_range(slots.probes, 7) {
        return false;
    }
    if !in_range(slots.slot, 1000) {
        return false;
    }
    if !in_range(slots.guard, 1000) {
        return false;
    }
    if 30000 < slots.period {
        return false;
    }
    slots.probes * (slots.slot + 2 * slots.guard) < slots.period
}

// Where slot i begins, its guards included: ticks from the start of a period on.
fn slot_begin(slots: Slots, i: u32) -> u32
    requires { Fits slots × (i < slots.probes) }
    ensures { (result ≡ begins slots i) × (result + width slots < slots.period) }
{
    i * (slots.slot + 2 * slots.guard)
}

// A location that is left at the end of its window.
fn put_location(out: &mut [u8], at: usize, end: u32) -> usize
    requires { (at + 3 ≤ length out.old) × (end < 65536) }
    ensures { Put out.old at (location_bytes (until end)) result out.new }
{
    out[at] = 0;
    out[at + 1] = (end / 256) as u8;
    out[at + 2] = (end % 256) as u8;
    at + layout::LOCATION_WIDTH
}

fn put_edge_head(
    out: &mut [u8],
    at: usize,
    kind: u8,
    source: u8,
    destination: u8,
    mask: u8,
    items: u8,
) -> usize
    requires { at + 7 ≤ length out.old }
    ensures { Put out.old at (edge_head kind source destination mask items) result out.new }
{
    out[at] = kind;
    out[at + layout::EDGE_SOURCE] = source;
    out[at + layout::EDGE_DESTINATION] = destination;
    out[at + layout::EDGE_MASK] = mask;
    out[at + layout::EDGE_CLOCK_GUARDS] = 1;
    out[at + layout::EDGE_DATA_GUARDS] = 0;
    out[at + layout::EDGE_ITEMS] = items;
    at + layout::EDGE_HEADER
}

// A clock bound with no high.
fn put_low(out: &mut [u8], at: usize, low: u32) -> usize
    requires { (at + 5 ≤ length out.old) × (low < 65536) }
    ensures { Put out.old at (low_bytes low) result out.new }
{
    out[at] = 0;
    out[at + layout::GUARD_LOW] = (low / 256) as u8;
    out[at + 2] = (low % 256) as u8;
    out[at + layout::GUARD_HIGH] = 255;
    out[at + 4] = 255;
    at + layout::GUARD_WIDTH
}

// A probe's edge of its slot: it sends on its channel.
fn put_send_edge(out: &mut [u8], at: usize, channel: u8, low: u32) -> usize
    requires { (at + 13 ≤ length out.old) × (low < 65536) }
    ensures { Put out.old at (arc_bytes (sending_arc channel low)) result out.new }
{
    let bound = put_edge_head(out, at, 1, 0, 1, 0, 1);
    let item = put_low(out, bound, low);
    out[item] = channel;
    item + 1
}

// The hub's edge of a slot: with or without a message it leads to the next location.
fn put_receive_edge(out: &mut [u8], at: usize, channel: u8, low: u32) -> usize
    requires { (at + 14 ≤ length out.old) × (low < 65536) × (channel < 255) }
    ensures { Put out.old at (arc_bytes (hearing_arc channel low)) result out.new }
{
    let bound = put_edge_head(out, at, 2, channel, channel + 1, 0, 1);
    let item = put_low(out, bound, low);
    out[item] = channel;
    out[item + 1] = channel + 1;
    item + layout::PAIR_WIDTH
}

// The rest: back to location 0, with the clock reset.
fn put_rest_edge(out: &mut [u8], at: usize, source: u8, low: u32) -> usize
    requires { (at + 12 ≤ length out.old) × (low < 65536) }
    ensures { Put out.old at (arc_bytes (resting_arc source low)) result out.new }
{
    let bound = put_edge_head(out, at, 0, source, 0, 1, 0);
    put_low(out, bound, low)
}

fn put_component_head(out: &mut [u8], at: usize, size: u32, parts: u8) -> usize
    requires { (at + 7 ≤ length out.old) × (size < 65536) }
    ensures { Put out.old at (component_head size parts) result out.new }
{
    out[at] = (size / 256) as u8;
    out[at + 1] = (size % 256) as u8;
    out[at + layout::COMPONENT_LOCATIONS] = parts;
    out[at + layout::COMPONENT_INITIAL] = 0;
    out[at + layout::COMPONENT_CLOCKS] = 1;
    out[at + layout::COMPONENT_VARIABLES] = 0;
    out[at + layout::COMPONENT_EDGES] = parts;
    at + layout::COMPONENT_HEADER
}

fn put_probe(slots: Slots, i: u32, out: &mut [u8], at: usize) -> usize
    requires { Fits slots × (i < slots.probes) × (at + 38 ≤ length out.old) }
    ensures { Put out.old at (component_bytes (probe slots i)) result out.new }
{
    let low = slot_begin(slots, i) + slots.guard;
    let first = put_component_head(out, at, 38, 2);
    let last = put_location(out, first, low + slots.slot);
    let edges = put_location(out, last, slots.period);
    let rest = put_send_edge(out, edges, i as u8, low);
    put_rest_edge(out, rest, 1, slots.period - 1)
}

fn put_probes(slots: Slots, out: &mut [u8], from: usize) -> usize
    requires { Fits slots × (from + slots.probes * 38 ≤ length out.old) }
    ensures { Put out.old from (each component_bytes (map (probe slots) (below slots.probes))) result out.new }
{
    let mut at = from;
    for i in 0..slots.probes {
        at = put_probe(slots, i, out, at);
    }
    at
}

// The hub's locations of its slots.
fn put_hub_locations(slots: Slots, out: &mut [u8], from: usize) -> usize
    requires { Fits slots × (from + slots.probes * 3 ≤ length out.old) }
    ensures { Put out.old from (each location_bytes (map (λ i. until (hear_to slots i)) (below slots.probes))) result out.new }
{
    let mut at = from;
    for i in 0..slots.probes {
        at = put_location(
            out,
            at,
            slot_begin(slots, i) + slots.guard + slots.slot + slots.guard,
        );
    }
    at
}

// The hub's edges of its slots.
fn put_hub_edges(slots: Slots, out: &mut [u8], from: usize) -> usize
    requires { Fits slots × (from + slots.probes * 14 ≤ length out.old) }
    ensures { Put out.old from (each arc_bytes (map (hear_arc slots) (below slots.probes))) result out.new }
{
    let mut at = from;
    for i in 0..slots.probes {
        at = put_receive_edge(out, at, i as u8, slot_begin(slots, i));
    }
    at
}

fn put_hub(slots: Slots, out: &mut [u8], at: usize) -> usize
    requires { Fits slots × (at + 22 + slots.probes * 17 ≤ length out.old) }
    ensures { Put out.old at (component_bytes (hub slots)) result out.new }
{
    let probes = slots.probes as u8;
    let first = put_component_head(out, at, 22 + 17 * slots.probes, probes + 1);
    let last = put_hub_locations(slots, out, first);
    let edges = put_location(out, last, slots.period);
    let rest = put_hub_edges(slots, out, edges);
    put_rest_edge(out, rest, probes, slots.period - 1)
}

fn put_table_head(out: &mut [u8], size: u32, probes: u8, horizon: u32) -> usize
    requires { (7 ≤ length out.old) × (size < 65536) × (probes < 255) × (horizon < 65536) }
    ensures { Put out.old 0 (table_head size probes horizon) result out.new }
{
    out[layout::TABLE_VERSION] = 1;
    out[layout::TABLE_LENGTH] = (size / 256) as u8;
    out[2] = (size % 256) as u8;
    out[layout::TABLE_COMPONENTS] = probes + 1;
    out[layout::TABLE_CHANNELS] = probes;
    out[layout::TABLE_HORIZON] = (horizon / 256) as u8;
    out[6] = (horizon % 256) as u8;
    layout::TABLE_HEADER
}

fn put_table(slots: Slots, out: &mut [u8]) -> usize
    requires { Fits slots × (29 + slots.probes * 55 ≤ length out.old) }
    ensures { Put out.old 0 (table_bytes (plan_table slots)) result out.new }
{
    let first = put_table_head(
        out,
        29 + 55 * slots.probes,
        slots.probes as u8,
        2 * slots.period,
    );
    let last = put_probes(slots, out, first);
    put_hub(slots, out, last)
}

fn refused(number: u8) -> Called
    ensures { (result.verdict ≡ Refused number 255) × (result.size ≡ 0) }
{
    Called {
        verdict: Verdict::Refused(number, 255),
        size: 0,
    }
}

// The table of a plan, laid over the front of the bytes lent. Every plan written is accepted, and its schedule is the closed form.
pub fn plan(slots: Slots, table: &mut [u8]) -> Called
    ensures { (result.verdict ≡ (plan_call slots table.old).verdict) × (result.size ≡ (plan_call slots table.old).size) × (table.new ≡ (plan_call slots table.old).lent) × (result.size ≤ 414) × (result.verdict ≡ Accepted → PlanAccepted slots (take result.size table.new)) }
{
    if !can_plan(slots) {
        return refused(18);
    }
    let size = 29 + 55 * slots.probes as usize;
    if table.len() < size {
        return refused(13);
    }
    put_table(slots, table);
    Called {
        verdict: Verdict::Accepted,
        size,
    }
}
