// Writes the table of a slot plan to standard output. The four arguments are probes, slot, guard and period, in decimal.
//
// Standard output holds the table's bytes and nothing else. After a refusal it holds nothing, and standard error has `refused`, number,
// component, and the question in words. What is wrong with the arguments goes to standard error too. The exit status tells none of it.
#![tactic(auto)]

use model::Verdict;
use slot_plan::Slots;
use std::env::Env;

// The number that an argument is. What is none counts as the greatest one, which is out of every range of a plan.
fn value(env: &impl Env, i: usize) -> u32 {
    arguments::argument(env, i).unwrap_or(u32::MAX)
}

fn main(rt: HostRuntime) {
    if arguments::count(&rt) != 5 {
        streams::say_line(&rt.stderr(), "usage: plan_table PROBES SLOT GUARD PERIOD");
        return;
    }
    let slots = Slots {
        probes: value(&rt, 1),
        slot: value(&rt, 2),
        guard: value(&rt, 3),
        period: value(&rt, 4),
    };
    // No plan is longer.
    let mut table = [0u8; 414];
    let plan = planner::plan(slots, &mut table);
    match plan.verdict {
        Verdict::Accepted => streams::write_front(
            &rt.stdout(),
            &rt.stderr(),
            &table,
            plan.size,
            "The table could not be written.",
        ),
        Verdict::Refused(number, component) => streams::say_refused(
            &rt.stderr(),
            number,
            component,
        ),
    }
}
