// Why this edge, in words, written into a lent slice, since there is no heap: the passage, then a line an edge from its location. The definition is specs/ReasonText.antt.
#![tactic(auto)]

pub mod sentences;

ghost use Rattle.std.specs.Prelude.{◌≡◌, List, [], ◌++◌, ℕ, ◌+◌, ◌*◌, ◌≤◌, ◌<◌, length};
ghost use Rattle.model.specs.Lists.{accepted, each};
ghost use Rattle.model.specs.Table.{size};
ghost use Rattle.model.specs.Places.{arc_at, budgeted, start_of, Valid, read_of, component_in};
ghost use Rattle.model.specs.Reasons.{edges_from};
ghost use Rattle.window.specs.Views.{entry_of, ArcReady};
ghost use Rattle.reasons.specs.Stays.{named_by, Present};
ghost use Rattle.text.specs.Words.{Added};
ghost use Rattle.schedule_text.specs.ScheduleText.{shown};
ghost use Rattle.reason_text.specs.ReasonText.{line_at, passage_head, reasons_text};
ghost use Rattle.reason_text.specs.Lines.{line_if_here, lines_at};

use model::{Location, layout};
use passages::Passage;
use reasons::Asked;
use text::{put, put_field};
use window::Entry;

// The edge at the front of the bytes, number e: its line if it leaves the location entered, else nothing.
fn put_edge(
    out: &mut [u8],
    at: usize,
    edge: &[u8],
    location: Location,
    entry: Entry,
    e: u8,
    taken: u8,
    ready: u32,
    end: u32,
    budgets: bool,
) -> usize
    requires { (at + 180 ≤ length out.old) × ArcReady budgets edge.now × (location.clock < 4) × (entry.tick ≤ 60000) }
    ensures { Added out.old at (line_if_here location (entry_of entry) taken ready end e (arc_at budgets edge.now)) out.new result × (result ≤ at + 180) }
{
    let standing = window::judge(edge, location, entry, budgets);
    if reasons::telling::elsewhere(standing) {
        return at;
    }
    let reason = reasons::telling::reason_from(standing, e, taken, entry.tick, ready);
    let colon = put_field(out, at, b"edge ", e as u32);
    let words = put(out, colon, b": ");
    let line = sentences::put_reason(
        out, words, edge, location, entry, taken, ready, end, reason, budgets,
    );
    put(out, line, b"\n")
}

// The lines of the edges of component c, which starts there in the table, that leave the location entered.
fn put_edges(
    out: &mut [u8],
    from: usize,
    table: &[u8],
    start: usize,
    c: u8,
    entry: Entry,
    taken: u8,
    ready: u32,
    end: u32,
    budgets: bool,
) -> usize
    requires { (from + 5760 ≤ length out.old) × Valid table.now × (c < size (read_of table.now).table) × (start ≡ start_of table.now c) × (entry.location < length (component_in table.now c).locations) × (entry.tick ≤ 60000) × (budgets ≡ budgeted table.now) }
    ensures { Added out.old from (lines_at (component_in table.now c) (entry_of entry) taken ready end) out.new result × (result ≤ from + 5760) }
{
    let count = parts::wide(table[start + layout::COMPONENT_EDGES]);
    let there = start
        + layout::COMPONENT_HEADER
        + parts::wide(entry.location) * layout::LOCATION_WIDTH;
    let location = decoder::location_at(&table[there..]);
    let mut place = start
        + layout::COMPONENT_HEADER
        + parts::wide(table[start + layout::COMPONENT_LOCATIONS]) * layout::LOCATION_WIDTH;
    let mut at = from;
    for e in 0..count {
        at = put_edge(
            out,
            at,
            &table[place..],
            location,
            entry,
            e as u8,
            taken,
            ready,
            end,
            budgets,
        );
        place += decoder::arc_length(&table[place..], budgets);
    }
    at
}

// The number of the passage, and its line in the schedule.
fn put_head(out: &mut [u8], at: usize, number: usize, passage: Passage) -> usize
    requires { (at + 130 ≤ length out.old) × (number ≤ 1024) }
    ensures { Added out.old at (passage_head number (shown passage)) out.new result × (result ≤ at + 130) }
{
    let heading = put_field(out, at, b"passage ", number as u32);
    let fields = put(out, heading, b"\nc e l entry ready end msg\n");
    schedule_text::put_passage(out, fields, passage)
}

// All of it, at the front of out.
pub fn put_reasons_text(out: &mut [u8], table: &[u8], asked: Asked) -> usize
    requires { (6000 ≤ length out.old) × Present table.now asked }
    ensures { Added out.old 0 (reasons_text (accepted (named_by table.now asked))) out.new result × (result ≤ 6000) }
{
    let entry = asked.at;
    let passage = Passage {
        component: asked.component,
        edge: asked.edge,
        location: entry.location,
        message: asked.message,
        entry: entry.tick,
        ready: asked.ready,
        end: asked.end,
    };
    let lines = put_head(out, 0, asked.number, passage);
    let budgets = decoder::budgeted(table);
    put_edges(
        out,
        lines,
        table,
        asked.start,
        asked.component,
        entry,
        asked.edge,
        asked.ready,
        asked.end,
        budgets,
    )
}
