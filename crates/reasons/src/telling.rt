// The reasons of the edges from a location, three bytes an edge.
ghost use Rattle.std.specs.Prelude.{◌≡◌, [], ◌∷◌, ◌++◌, ◌+◌, ◌*◌, ◌≤◌, ◌<◌, length, drop};
ghost use Rattle.std.proofs.lemmas.List.Edits.{sets};
ghost use Rattle.model.specs.Lists.{each};
ghost use Rattle.model.specs.Table.{size};
ghost use Rattle.model.specs.Places.{arc_at, budgeted, start_of, Valid, read_of, component_in};
ghost use Rattle.model.specs.Reasons.{edges_from, reason_number, reason_bound};
ghost use Rattle.window.specs.Views.{entry_of, ArcReady, SmallDelays};
ghost use Rattle.reasons.specs.Telling.{is_elsewhere, reason_from, one, EdgePut, edge_bytes};

use model::{Location, Reason, layout};
use window::{Entry, Standing};

// Whether the edge leaves another location.
pub fn elsewhere(standing: Standing) -> bool
    ensures { result ≡ is_elsewhere standing }
{
    match standing {
        Standing::Elsewhere => true,
        Standing::Blocked(_) => false,
        Standing::Windowless => false,
        Standing::Candidate(_, _) => false,
    }
}

// The reason of edge e from the location of a passage that was entered at a tick and took an edge that is ready at a tick.
pub fn reason_from(standing: Standing, e: u8, taken: u8, entry: u32, ready: u32) -> Reason
    requires { SmallDelays standing × (entry ≤ 1000000) }
    ensures { result ≡ reason_from standing e taken entry ready }
{
    if e == taken {
        return Reason::Taken;
    }
    match standing {
        Standing::Elsewhere => Reason::NoWindow,
        Standing::Blocked(bound) => Reason::DataBound(bound),
        Standing::Windowless => Reason::NoWindow,
        Standing::Candidate(delay, _) => {
            if ready < entry + delay {
                return Reason::ReadyLater;
            }
            Reason::HigherNumber
        }
    }
}

fn reason_number(reason: Reason) -> u8
    ensures { result ≡ reason_number reason }
{
    match reason {
        Reason::Taken => 0,
        Reason::DataBound(_) => 1,
        Reason::NoWindow => 2,
        Reason::ReadyLater => 3,
        Reason::HigherNumber => 4,
    }
}

fn reason_bound(reason: Reason) -> u8
    ensures { result ≡ reason_bound reason }
{
    match reason {
        Reason::Taken => 255,
        Reason::DataBound(bound) => bound,
        Reason::NoWindow => 255,
        Reason::ReadyLater => 255,
        Reason::HigherNumber => 255,
    }
}

// Writes the reason of edge e as number k.
fn put_reason(told: &mut [u8], k: usize, e: u8, reason: Reason)
    requires { (k * 3 + 3 ≤ length told.old) × (k ≤ 32) }
    ensures { told.new ≡ sets told.old (k * 3) (e ∷ reason_number reason ∷ reason_bound reason ∷ []) }
{
    let at = k * 3;
    told[at] = e;
    told[at + 1] = reason_number(reason);
    told[at + 2] = reason_bound(reason);
}

// Writes the reason of the edge at the front of the bytes, number e, as number k if it leaves the location entered; then how many are written.
fn put_edge(
    edge: &[u8],
    location: Location,
    at: Entry,
    e: u8,
    taken: u8,
    ready: u32,
    told: &mut [u8],
    k: usize,
    budgets: bool,
) -> usize
    requires { ArcReady budgets edge.now × (location.clock < 4) × (at.tick ≤ 1000000) × (k ≤ 32) × ((arc_at budgets edge.now).edge.source ≡ at.location → k * 3 + 3 ≤ length told.old) }
    ensures { EdgePut location (entry_of at) taken ready e (arc_at budgets edge.now) k told.old result told.new }
{
    let standing = window::judge(edge, location, at, budgets);
    if elsewhere(standing) {
        return k;
    }
    let reason = reason_from(standing, e, taken, at.tick, ready);
    put_reason(told, k, e, reason);
    k + 1
}

// How many edges of component c, which starts there in the table, leave the location.
pub fn count_edges(table: &[u8], start: usize, c: u8, here: u8, budgets: bool) -> usize
    requires { Valid table.now × (c < size (read_of table.now).table) × (start ≡ start_of table.now c) × (budgets ≡ budgeted table.now) }
    ensures { (result ≡ length (edges_from (component_in table.now c) here)) × (result ≤ 32) }
{
    let count = parts::wide(table[start + layout::COMPONENT_EDGES]);
    let mut place = start
        + layout::COMPONENT_HEADER
        + parts::wide(table[start + layout::COMPONENT_LOCATIONS]) * layout::LOCATION_WIDTH;
    let mut k: usize = 0;
    for _ in 0..count {
        k += counted(table[place + layout::EDGE_SOURCE], here);
        place += decoder::arc_length(&table[place..], budgets);
    }
    k
}

fn counted(source: u8, here: u8) -> usize
    ensures { (result ≡ one source here) × (result ≤ 1) }
{
    if source == here { 1 } else { 0 }
}

// Writes the reasons of the edges of component c, which starts there in the table, that leave the location entered.
pub fn put_reasons(
    table: &[u8],
    start: usize,
    c: u8,
    at: Entry,
    taken: u8,
    ready: u32,
    told: &mut [u8],
    budgets: bool,
)
    requires { Valid table.now × (c < size (read_of table.now).table) × (start ≡ start_of table.now c) × (at.location < length (component_in table.now c).locations) × (at.tick ≤ 1000000) × (length (edges_from (component_in table.now c) at.location) * 3 ≤ length told.old) × (budgets ≡ budgeted table.now) }
    ensures { told.new ≡ each (edge_bytes (component_in table.now c) (entry_of at) taken ready) (edges_from (component_in table.now c) at.location) ++ drop (length (edges_from (component_in table.now c) at.location) * 3) told.old }
{
    let count = parts::wide(table[start + layout::COMPONENT_EDGES]);
    let there = start
        + layout::COMPONENT_HEADER
        + parts::wide(at.location) * layout::LOCATION_WIDTH;
    let location = decoder::location_at(&table[there..]);
    let mut place = start
        + layout::COMPONENT_HEADER
        + parts::wide(table[start + layout::COMPONENT_LOCATIONS]) * layout::LOCATION_WIDTH;
    let mut k: usize = 0;
    for e in 0..count {
        k = put_edge(
            &table[place..],
            location,
            at,
            e as u8,
            taken,
            ready,
            told,
            k,
            budgets,
        );
        place += decoder::arc_length(&table[place..], budgets);
    }
}
