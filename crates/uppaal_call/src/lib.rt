// The call `uppaal`: an accepted table as a text for UPPAAL. The contract equates the answer, and every lent byte afterwards, with the call's
// definition in uppaal's specs/UppaalCall.antt, for all inputs; the parts that are written have the table's paths; and the bytes of an accepted
// table, read by the tool's grammar, are a network that has them.
#![tactic(auto)]

ghost use Rattle.std.specs.Prelude.{◌≡◌, true, ◌≤◌, length, take};
ghost use Rattle.model.specs.declared.Verdict.TheVariants.{Accepted, Refused};
ghost use Rattle.model.specs.Reader.{byte};
ghost use Rattle.model.specs.Places.{Valid, read_of};
ghost use Rattle.model.specs.Calls.{check_call};
ghost use Rattle.table.specs.Directory.{starts_of};
ghost use Rattle.translator.specs.Front.{front_component, Whole};
ghost use Rattle.uppaal.specs.XtaText.{system_text};
ghost use Rattle.uppaal.specs.Export.{system_for};
ghost use Rattle.uppaal.specs.UppaalCall.{budgetless, all_budgetless, uppaal_call, SamePathsOf, DenseTimeOf, Carries};
ghost use Rattle.uppaal_text.proofs.Rooms.{component_room};
ghost use Rattle.uppaal_call.specs.LaidText.{laid_text};

use model::{Verdict, layout};

// The answer: the verdict, and how many bytes the text has, 0 after a refusal. A struct: the contract of `uppaal` equates each of the two.
#[derive(Clone, Copy)]
pub struct Exported {
    pub verdict: Verdict,
    pub size: usize,
}

fn refused(number: u8, component: u8) -> Exported
    ensures { (result.verdict ≡ Refused number component) × (result.size ≡ 0) }
{
    Exported {
        verdict: Verdict::Refused(number, component),
        size: 0,
    }
}

// Whether the component at the front, whose edges have budgets, has none but 0.
fn is_budgetless(component: &[u8]) -> bool
    requires { Whole true component.now }
    ensures { result ≡ budgetless (front_component true component.now) }
{
    let locations = usize::from(component[layout::COMPONENT_LOCATIONS]);
    let mut place = layout::COMPONENT_HEADER + locations * layout::LOCATION_WIDTH;
    // Where the next edge stands is read from the bytes.
    for _ in 0..component[layout::COMPONENT_EDGES] {
        if parts::word_at(component, place + layout::EDGE_BUDGET) != 0 {
            return false;
        }
        place += decoder::arc_length(&component[place..], true);
    }
    true
}

// Whether all budgets of a valid table are 0, or it has none.
fn are_budgetless(table: &[u8], starts: [u16; 8]) -> bool
    requires { Valid table.now × (starts ≡ starts_of table.now (byte table.now 3)) }
    ensures { result ≡ all_budgetless (read_of table.now).table }
{
    if !decoder::budgeted(table) {
        return true;
    }
    for c in 0..usize::from(table[layout::TABLE_COMPONENTS]) {
        if !is_budgetless(&table[usize::from(starts[c])..]) {
            return false;
        }
    }
    true
}

// At least as many bytes as the process of the component at the front has, by its edges' counts of items.
fn process_room(component: &[u8], budgets: bool) -> usize
    requires { Whole budgets component.now }
    ensures { (component_room (front_component budgets component.now) ≤ result) × (result ≤ 80000000) }
{
    let locations = usize::from(component[layout::COMPONENT_LOCATIONS]);
    let mut place = layout::COMPONENT_HEADER + locations * layout::LOCATION_WIDTH;
    let mut room: usize = 480;
    let edges = component[layout::COMPONENT_EDGES];
    // Where the next edge stands is read from the bytes.
    for _ in 0..edges {
        room += usize::from(component[place + layout::EDGE_ITEMS]) * 979 + 1667;
        place += decoder::arc_length(&component[place..], budgets);
    }
    room
}

// At least as many bytes as the text of a valid table has.
fn text_room(table: &[u8], starts: [u16; 8]) -> usize
    requires { Valid table.now × (starts ≡ starts_of table.now (byte table.now 3)) }
    ensures { length (system_text (system_for (read_of table.now).table)) ≤ result }
{
    let budgets = decoder::budgeted(table);
    let mut room: usize = 137;
    for c in 0..usize::from(table[layout::TABLE_COMPONENTS]) {
        room += process_room(&table[usize::from(starts[c])..], budgets);
    }
    room
}

// The text of an accepted table without budgets: written at once where there is room for the longest that it can be, else counted first, in a
// byte of its own, then written if it fits.
fn write_text(table: &[u8], starts: [u16; 8], text: &mut [u8]) -> Exported
    requires { Valid table.now × (starts ≡ starts_of table.now (byte table.now 3)) }
    ensures { (result.verdict ≡ (laid_text table.now text.old).verdict) × (result.size ≡ (laid_text table.now text.old).size) × (text.new ≡ (laid_text table.now text.old).lent) × (result.size ≤ 64000480) }
{
    if text_room(table, starts) <= text.len() {
        return Exported {
            verdict: Verdict::Accepted,
            size: uppaal_text::put_system(table, starts, text, 0),
        };
    }
    let mut scrap = [0u8; 1];
    let size = uppaal_text::put_system(table, starts, &mut scrap, 0);
    if text.len() < size {
        return refused(13, 255);
    }
    uppaal_text::put_system(table, starts, text, 0);
    Exported {
        verdict: Verdict::Accepted,
        size: size,
    }
}

// Checks 7 to 12 of a table that was read.
fn planned(table: &[u8], starts: [u16; 8]) -> Verdict
    requires { Valid table.now × (starts ≡ starts_of table.now (byte table.now 3)) }
    ensures { result ≡ check_call table.now }
{
    let mut rows = [0u32; 9216];
    let r = schedule::plan_rows(table, starts, &mut rows, 0);
    r.verdict
}

// The text of a table that was read.
fn uppaal_into(table: &[u8], starts: [u16; 8], text: &mut [u8]) -> Exported
    requires { Valid table.now × (starts ≡ starts_of table.now (byte table.now 3)) }
    ensures { (result.verdict ≡ (uppaal_call table.now text.old).verdict) × (result.size ≡ (uppaal_call table.now text.old).size) × (text.new ≡ (uppaal_call table.now text.old).lent) × (result.size ≤ 64000480) }
{
    let v = planned(table, starts);
    match v {
        Verdict::Refused(number, component) => refused(number, component),
        Verdict::Accepted => {
            if !are_budgetless(table, starts) {
                return refused(25, 255);
            }
            write_text(table, starts, text)
        }
    }
}

// The text, laid over the front of the bytes lent.
pub fn uppaal(table: &[u8], text: &mut [u8]) -> Exported
    ensures { (result.verdict ≡ (uppaal_call table.now text.old).verdict) × (result.size ≡ (uppaal_call table.now text.old).size) × (text.new ≡ (uppaal_call table.now text.old).lent) × (result.size ≤ 64000480) × SamePathsOf table.now × DenseTimeOf table.now × (result.verdict ≡ Accepted → Carries table.now (take result.size text.new)) }
{
    let r = table::read(table);
    let v = r.verdict;
    match v {
        Verdict::Refused(number, component) => refused(number, component),
        Verdict::Accepted => {
            let starts = r.starts;
            uppaal_into(table, starts, text)
        }
    }
}
