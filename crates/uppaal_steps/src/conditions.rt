// Guards and assignments for UPPAAL, of the edge at the front.
ghost use Rattle.std.specs.Prelude.{◌≡◌, true, [], ◌++◌, map, ℕ, ◌+◌, ◌*◌, ◌≤◌};
ghost use Rattle.model.specs.Places.{arc_at};
ghost use Rattle.blocks.specs.Put.{Put};
ghost use Rattle.uppaal.specs.XtaText.{atom_text, each_after, guard_text, assign_text};
ghost use Rattle.uppaal.specs.Export.{uppers_from, range_atoms, others, assignment_of, assignments_of};
ghost use Rattle.uppaal_parts.specs.Marks.{marked, led_text, none_of};
ghost use Rattle.uppaal_steps.specs.Steps.{Writable, uppers_text};

use model::{Location, layout};
use uppaal_parts::Mark;
use uppaal_parts::assignments::Led;

// The upper bounds, from a location with this invariant; the mark says which of them is reached.
pub fn put_uppers(
    edge: &[u8],
    budgets: bool,
    location: Location,
    tight: u8,
    out: &mut [u8],
    at: usize,
) -> usize
    requires { Writable budgets edge.now × (at + 190 ≤ 2305843009213693952) }
    ensures { Put out.old at (uppers_text tight location (arc_at budgets edge.now)) result out.new × (result ≤ at + 190) }
{
    let head = decoder::head_length(budgets);
    let mark = Mark { at, tight }.put_upper(out, location.clock, location.bound);
    mark.put_highs(&edge[head..], edge[layout::EDGE_CLOCK_GUARDS], out)
}

// That the updates stay in range; other edges than internal ones have none.
fn put_edge_ranges(edge: &[u8], budgets: bool, out: &mut [u8], at: usize) -> usize
    requires { Writable budgets edge.now × (at + 400 ≤ 2305843009213693952) }
    ensures { Put out.old at (each_after " && " atom_text (range_atoms [] (arc_at budgets edge.now).updates)) result out.new × (result ≤ at + 400) }
{
    if edge[layout::EDGE_KIND] != 0 {
        return at;
    }
    let items = decoder::items_place(edge, budgets);
    uppaal_parts::ranges::put_ranges(&edge[items..], edge[layout::EDGE_ITEMS], out, at)
}

// What a step in asks besides the upper bounds.
fn put_conditions(edge: &[u8], budgets: bool, out: &mut [u8], at: usize) -> usize
    requires { Writable budgets edge.now × (at + 960 ≤ 2305843009213693952) }
    ensures { Put out.old at (each_after " && " atom_text (others (arc_at budgets edge.now))) result out.new × (result ≤ at + 960) }
{
    let head = decoder::head_length(budgets);
    let count = edge[layout::EDGE_CLOCK_GUARDS];
    let datas = head + parts::wide(count) * layout::GUARD_WIDTH;
    let first = uppaal_parts::put_lows(&edge[head..], count, out, at);
    let second = uppaal_parts::put_datas(
        &edge[datas..],
        edge[layout::EDGE_DATA_GUARDS],
        out,
        first,
    );
    put_edge_ranges(edge, budgets, out, second)
}

// The guard of a step in.
pub fn put_guard_in(
    edge: &[u8],
    budgets: bool,
    location: Location,
    tight: u8,
    out: &mut [u8],
    at: usize,
) -> usize
    requires { Writable budgets edge.now × (at + 1160 ≤ 2305843009213693952) }
    ensures { Put out.old at (guard_text (marked tight (uppers_from location (arc_at budgets edge.now)) ++ others (arc_at budgets edge.now))) result out.new × (result ≤ at + 1160) }
{
    let first = words::put_words(out, at, b" guard ");
    let second = put_uppers(edge, budgets, location, tight, out, first);
    let third = put_conditions(edge, budgets, out, second);
    words::put_words(out, third, b";")
}

// The guard of a step out.
pub fn put_guard_out(
    edge: &[u8],
    budgets: bool,
    location: Location,
    tight: u8,
    out: &mut [u8],
    at: usize,
) -> usize
    requires { Writable budgets edge.now × (at + 200 ≤ 2305843009213693952) }
    ensures { Put out.old at (guard_text (marked tight (uppers_from location (arc_at budgets edge.now)))) result out.new × (result ≤ at + 200) }
{
    let first = words::put_words(out, at, b" guard ");
    let second = put_uppers(edge, budgets, location, tight, out, first);
    words::put_words(out, second, b";")
}

// The updates as assignments, and whether there are none.
fn put_edge_updates(edge: &[u8], budgets: bool, out: &mut [u8], at: usize) -> Led
    requires { Writable budgets edge.now × (at + 240 ≤ 2305843009213693952) }
    ensures { Put out.old at (led_text true (map assignment_of (arc_at budgets edge.now).updates)) result.at out.new × (result.first ≡ none_of true (arc_at budgets edge.now).updates) × (result.at ≤ at + 240) }
{
    if edge[layout::EDGE_KIND] != 0 {
        return Led { at, first: true };
    }
    let items = decoder::items_place(edge, budgets);
    uppaal_parts::assignments::put_updates(&edge[items..], edge[layout::EDGE_ITEMS], out, at)
}

// The assignments of a step out, of a component with so many clocks.
pub fn put_assign(edge: &[u8], budgets: bool, clocks: u8, out: &mut [u8], at: usize) -> usize
    requires { Writable budgets edge.now × (clocks ≤ 4) × (at + 405 ≤ 2305843009213693952) }
    ensures { Put out.old at (assign_text (assignments_of clocks (arc_at budgets edge.now))) result out.new × (result ≤ at + 405) }
{
    let led = put_edge_updates(edge, budgets, out, at);
    uppaal_parts::assignments::put_resets_closed(edge[layout::EDGE_MASK], clocks, out, led)
}
