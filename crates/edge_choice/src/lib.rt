// The call `edge_choice`: the edge that a component takes as it enters a location, and how many edges were looked at (document 02, wish 5).
// The contract equates every number of the answer with the call's definition in model's specs/EdgeChoice.antt, for all inputs.
#![tactic(auto)]

ghost use Rattle.std.specs.Prelude.{◌≡◌, ◌<◌, length};
ghost use Rattle.std.proofs.Math.Option.{none};
ghost use Rattle.model.specs.Table.{size};
ghost use Rattle.model.specs.Reader.{byte};
ghost use Rattle.model.specs.Places.{start_of, Valid, read_of, component_in};
ghost use Rattle.model.specs.EdgeChoice.{chosen_of, not_chosen, edge_choice_call};
ghost use Rattle.table.specs.Directory.{starts_of};
ghost use Rattle.window.specs.Views.{entry_of, pick_of};
ghost use Rattle.edge_choice.specs.Answers.{call_of};

use model::{Verdict, layout};
use window::{Choice, Entry};

// The verdict of checks 1 to 6; whether an edge is taken, its number and its window, counted from the entry, 0 where none is; and how many
// edges were looked at.
#[derive(Clone, Copy)]
pub struct EdgeChoice {
    pub verdict: Verdict,
    pub taken: bool,
    pub edge: u8,
    pub ready: u32,
    pub end: u32,
    pub looked: u32,
}

fn refused(number: u8, component: u8) -> EdgeChoice
    ensures { call_of result ≡ not_chosen number component }
{
    EdgeChoice {
        verdict: Verdict::Refused(number, component),
        taken: false,
        edge: 0,
        ready: 0,
        end: 0,
        looked: 0,
    }
}

// No edge is taken.
fn none_taken(looked: u32) -> EdgeChoice
    ensures { call_of result ≡ chosen_of none looked }
{
    EdgeChoice {
        verdict: Verdict::Accepted,
        taken: false,
        edge: 0,
        ready: 0,
        end: 0,
        looked,
    }
}

// What the search found.
fn answered(choice: Choice, looked: u32) -> EdgeChoice
    requires { choice.ready < 65536 → choice.edge < 256 }
    ensures { call_of result ≡ chosen_of (pick_of choice) looked }
{
    if 65535 < choice.ready {
        return none_taken(looked);
    }
    EdgeChoice {
        verdict: Verdict::Accepted,
        taken: true,
        edge: choice.edge as u8,
        ready: choice.ready,
        end: choice.end,
        looked,
    }
}

// The choice of component c, which starts there in the table, at a location that it has.
fn choose_there(table: &[u8], start: usize, c: u8, at: Entry) -> EdgeChoice
    requires { Valid table.now × (c < size (read_of table.now).table) × (start ≡ start_of table.now c) × (at.location < length (component_in table.now c).locations) }
    ensures { call_of result ≡ edge_choice_call table.now c (entry_of at) }
{
    let budgets = decoder::budgeted(table);
    let mut index = [32u16; 640];
    window::index::put_edges(table, start, usize::from(c), &mut index, budgets);
    let found = window::choose(table, start, c, at, &index, budgets);
    let choice = found.choice;
    answered(choice, found.looked as u32)
}

// The choice in a table that was read. A component that is absent has no edge, and from a location that is absent none leaves.
fn choose_read(table: &[u8], starts: [u16; 8], c: u8, at: Entry) -> EdgeChoice
    requires { Valid table.now × (starts ≡ starts_of table.now (byte table.now 3)) }
    ensures { call_of result ≡ edge_choice_call table.now c (entry_of at) }
{
    if table[layout::TABLE_COMPONENTS] <= c {
        return none_taken(0);
    }
    let start = usize::from(starts[usize::from(c)]);
    if table[start + layout::COMPONENT_LOCATIONS] <= at.location {
        return none_taken(u32::from(table[start + layout::COMPONENT_EDGES]));
    }
    choose_there(table, start, c, at)
}

// The edge that component c of a table that passes 1 to 6 takes as it enters so.
pub fn edge_choice(table: &[u8], c: u8, at: Entry) -> EdgeChoice
    ensures { call_of result ≡ edge_choice_call table.now c (entry_of at) }
{
    let r = table::read(table);
    let v = r.verdict;
    match v {
        Verdict::Refused(number, component) => refused(number, component),
        Verdict::Accepted => {
            let starts = r.starts;
            choose_read(table, starts, c, at)
        }
    }
}
