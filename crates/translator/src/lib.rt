// The translator: how long the program of a valid table is, and its bytes (document 01, 'The program').
#![tactic(auto)]

ghost use Rattle.std.specs.Prelude.{◌≡◌, cond, [], ◌∷◌, ◌++◌, map, ◌+◌, ◌-◌, ◌*◌, ◌/◌, ◌≤◌, ◌<◌, length, drop};
ghost use Rattle.model.specs.Lists.{be16, each};
ghost use Rattle.model.specs.Reader.{byte, clock_guard_at};
ghost use Rattle.model.specs.Places.{arc_length, arc_at, Valid, read_of};
ghost use Rattle.model.specs.Program.{clock_tests, edge_block_of, block_bytes, node_bytes, program_bytes};
ghost use Rattle.model.proofs.Program.Size.{work_length, arc_share, Sourced};
ghost use Rattle.table.specs.Directory.{starts_of};
ghost use Rattle.blocks.specs.Put.{Room, Put};
ghost use Rattle.blocks.specs.Made.{all_made};
ghost use Rattle.blocks.specs.FrontEdges.{arcs_at, ArcsFit};
ghost use Rattle.blocks.specs.declared.Kind.TheVariants.{ClockGuards};
ghost use Rattle.translator.specs.Front.{front_component, Whole};
ghost use Rattle.translator.specs.Laid.{location_blocks, Ready, Laid, Aligned, node_head, program_head};

use model::{Action, layout};

fn put_word(out: &mut [u8], at: usize, number: u16) -> usize
    requires { at + 2 ≤ length out.old }
    ensures { Put out.old at (be16 number) result out.new }
{
    blocks::put_bytes(out, at, [(number / 256) as u8, (number % 256) as u8])
}

// How many statements stand from the first block to a place.
fn statements_between(first: usize, at: usize) -> u16
    requires { (first ≤ at) × ((at - first) / 4 < 65536) }
    ensures { result ≡ (at - first) / 4 }
{
    ((at - first) / 4) as u16
}

// The blocks of the locations of the component at the front, from `first` on, and their starts.
fn put_location_blocks(
    component: &[u8],
    out: &mut [u8],
    starts: usize,
    first: usize,
    budgets: bool,
) -> usize
    requires { Whole budgets component.now × Ready out.old 0 starts first (location_blocks (front_component budgets component.now)) }
    ensures { Laid out.old 0 starts first (location_blocks (front_component budgets component.now)) result out.new }
{
    let n = component[layout::COMPONENT_LOCATIONS];
    let edges = layout::COMPONENT_HEADER + parts::wide(n) * layout::LOCATION_WIDTH;
    let mut place = starts;
    let mut at = first;
    for here in 0..n {
        let l = decoder::location_at(
            &component[layout::COMPONENT_HEADER + parts::wide(here) * layout::LOCATION_WIDTH..],
        );
        place = put_word(out, place, statements_between(first, at));
        at = blocks::put_location_block(
            &component[edges..],
            component[layout::COMPONENT_EDGES],
            here,
            l,
            out,
            at,
            budgets,
        );
    }
    at
}

// The blocks of the n edges at the front, from `from` on, and their starts.
fn put_edge_blocks(
    bytes: &[u8],
    count: u8,
    clocks: u8,
    out: &mut [u8],
    starts: usize,
    first: usize,
    from: usize,
    budgets: bool,
) -> usize
    requires { ArcsFit budgets count bytes.now × Aligned first from × Ready out.old ((from - first) / 4) starts from (map (edge_block_of clocks) (arcs_at budgets count bytes.now)) }
    ensures { Laid out.old ((from - first) / 4) starts from (map (edge_block_of clocks) (arcs_at budgets count bytes.now)) result out.new }
{
    let mut edge: usize = 0;
    let mut place = starts;
    let mut at = from;
    for _ in 0..count {
        place = put_word(out, place, statements_between(first, at));
        at = blocks::put_edge_block(&bytes[edge..], clocks, out, at, budgets);
        edge += decoder::arc_length(&bytes[edge..], budgets);
    }
    at
}

fn put_node_head(
    out: &mut [u8],
    at: usize,
    long: u16,
    locations: u8,
    edges: u8,
    initial: u8,
) -> usize
    requires { at + 6 ≤ length out.old }
    ensures { Put out.old at (node_head long locations edges initial) result out.new }
{
    let long = [(long / 256) as u8, (long % 256) as u8];
    blocks::put_bytes(out, at, [long[0], long[1], locations, edges, initial, 0])
}

// The part of one node, from the component at the front.
fn put_node(component: &[u8], out: &mut [u8], at: usize, budgets: bool) -> usize
    requires { Whole budgets component.now × Room out.old at (node_bytes (front_component budgets component.now)) × (length (node_bytes (front_component budgets component.now)) ≤ 24576) }
    ensures { Put out.old at (node_bytes (front_component budgets component.now)) result out.new }
{
    let n = component[layout::COMPONENT_LOCATIONS];
    let m = component[layout::COMPONENT_EDGES];
    let edges = layout::COMPONENT_HEADER + parts::wide(n) * layout::LOCATION_WIDTH;
    let starts = at + layout::PART_HEADER + parts::wide(n) * layout::START_WIDTH;
    let first = starts + parts::wide(m) * layout::START_WIDTH;
    let from = put_location_blocks(component, out, at + layout::PART_HEADER, first, budgets);
    let end = put_edge_blocks(
        &component[edges..],
        m,
        component[layout::COMPONENT_CLOCKS],
        out,
        starts,
        first,
        from,
        budgets,
    );
    put_node_head(
        out,
        at,
        (end - at) as u16,
        n,
        m,
        component[layout::COMPONENT_INITIAL],
    );
    end
}

// The parts of all nodes.
fn put_nodes(table: &[u8], starts: [u16; 8], out: &mut [u8], from: usize) -> usize
    requires { Valid table.now × (starts ≡ starts_of table.now (byte table.now 3)) × Room out.old from (each node_bytes (read_of table.now).table.components) }
    ensures { Put out.old from (each node_bytes (read_of table.now).table.components) result out.new }
{
    let budgets = decoder::budgeted(table);
    let count = table[layout::TABLE_COMPONENTS];
    let mut at = from;
    for start in &starts[..usize::from(count)] {
        let place = usize::from(*start);
        at = put_node(&table[place..], out, at, budgets);
    }
    at
}

fn put_program_head(out: &mut [u8], version: u8, long: u16, count: u8, horizon: u16) -> usize
    requires { 6 ≤ length out.old }
    ensures { Put out.old 0 (program_head version long count horizon) result out.new }
{
    let long = [(long / 256) as u8, (long % 256) as u8];
    let last = [(horizon / 256) as u8, (horizon % 256) as u8];
    blocks::put_bytes(out, 0, [version, long[0], long[1], count, last[0], last[1]])
}

// Writes the program; the bytes past it stay.
pub fn write_program(table: &[u8], starts: [u16; 8], out: &mut [u8]) -> usize
    requires { Valid table.now × (starts ≡ starts_of table.now (byte table.now 3)) × (length (program_bytes (read_of table.now)) ≤ length out.old) }
    ensures { (result ≡ length (program_bytes (read_of table.now))) × (out.new ≡ program_bytes (read_of table.now) ++ drop (length (program_bytes (read_of table.now))) out.old) }
{
    let end = put_nodes(table, starts, out, layout::PROGRAM_HEADER);
    put_program_head(
        out,
        table[layout::TABLE_VERSION],
        end as u16,
        table[layout::TABLE_COMPONENTS],
        parts::word_at(table, layout::TABLE_HORIZON),
    );
    end
}

// How many bytes the tests of a clock bound have.
fn clock_length(bytes: &[u8]) -> usize
    requires { 5 ≤ length bytes.now }
    ensures { (result ≡ length (block_bytes (clock_tests (clock_guard_at bytes.now ∷ [])))) × (result ≤ 8) }
{
    if parts::word_at(bytes, layout::GUARD_HIGH) == 65535 {
        return 4;
    }
    8
}

fn clocks_length(bytes: &[u8], count: u8) -> usize
    requires { count * 5 ≤ length bytes.now }
    ensures { (result ≡ length (all_made ClockGuards count bytes.now)) × (result ≤ 2040) }
{
    let mut long: usize = 0;
    let mut place: usize = 0;
    for _ in 0..count {
        long += clock_length(&bytes[place..]);
        place += layout::GUARD_WIDTH;
    }
    long
}

fn work_length(bytes: &[u8], budgets: bool) -> usize
    requires { (7 ≤ length bytes.now) × (arc_length budgets bytes.now ≤ length bytes.now) }
    ensures { (result ≡ work_length (arc_at budgets bytes.now) (arc_at budgets bytes.now).edge.action) × (result ≤ 1024) }
{
    let action = decoder::action_at(bytes, budgets);
    match action {
        Action::Internal => parts::wide(bytes[layout::EDGE_ITEMS]) * 4 + 4,
        Action::Send(_) => 4,
        Action::Receive => parts::wide(bytes[layout::EDGE_ITEMS]) * 4 + 4,
    }
}

// How many bytes the statement of a budget has; none where edges have none.
fn budget_length(budgets: bool) -> usize
    ensures { (result ≡ cond budgets 4 0) × (result ≤ 4) }
{
    if budgets { layout::STATEMENT_WIDTH } else { 0 }
}

// How many bytes an edge adds to its node's part: its start, its trial and its block.
fn arc_share(bytes: &[u8], clocks: u8, budgets: bool) -> usize
    requires { (7 ≤ length bytes.now) × (arc_length budgets bytes.now ≤ length bytes.now) }
    ensures { result ≡ arc_share clocks (arc_at budgets bytes.now) }
{
    let head = decoder::head_length(budgets);
    let budget = budget_length(budgets);
    let trial = 12
        + clocks_length(&bytes[head..], bytes[layout::EDGE_CLOCK_GUARDS])
        + parts::wide(bytes[layout::EDGE_DATA_GUARDS]) * 8
        + budget;
    let block = 12 + work_length(bytes, budgets) + parts::wide(clocks) * 4;
    2 + trial + block
}

// How many bytes a node's part has. Each edge has its trial in the block of its source.
fn node_length(component: &[u8], budgets: bool) -> usize
    requires { Whole budgets component.now × Sourced (front_component budgets component.now) × (length (node_bytes (front_component budgets component.now)) ≤ 24576) }
    ensures { result ≡ length (node_bytes (front_component budgets component.now)) }
{
    let n = parts::wide(component[layout::COMPONENT_LOCATIONS]);
    let clocks = component[layout::COMPONENT_CLOCKS];
    let arcs = component[layout::COMPONENT_EDGES];
    let mut long = 6 + n * 6;
    let mut edge = layout::COMPONENT_HEADER + n * layout::LOCATION_WIDTH;
    for _ in 0..arcs {
        long += arc_share(&component[edge..], clocks, budgets);
        edge += decoder::arc_length(&component[edge..], budgets);
    }
    long
}

// How many bytes the program has.
pub fn program_length(table: &[u8], starts: [u16; 8]) -> usize
    requires { Valid table.now × (starts ≡ starts_of table.now (byte table.now 3)) }
    ensures { (result ≡ length (program_bytes (read_of table.now))) × (result ≤ 24576) }
{
    let budgets = decoder::budgeted(table);
    let count = table[layout::TABLE_COMPONENTS];
    let mut long: usize = layout::PROGRAM_HEADER;
    for start in &starts[..usize::from(count)] {
        let place = usize::from(*start);
        long += node_length(&table[place..], budgets);
    }
    long
}
