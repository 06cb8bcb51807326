// The whole list of choices (document 01, 'The run'): the nodes at their programs' start, the choices one after the other, the end.
#![tactic(auto)]

ghost use Rattle.std.specs.Prelude.{◌≡◌, List, ℕ, ◌+◌, ◌*◌, ◌≤◌, ◌<◌, eqb, length, get_or};
ghost use Rattle.std.specs.Option.{ForSome, unwrap_or};
ghost use Rattle.model.specs.Lists.{any, below, accepted};
ghost use Rattle.model.specs.Reader.{byte};
ghost use Rattle.model.specs.Places.{Valid, read_of};
ghost use Rattle.model.specs.Schedule.{Passage};
ghost use Rattle.model.specs.Checks.{accepted_schedule_at};
ghost use Rattle.model.specs.Program.{program_bytes};
ghost use Rattle.model.specs.Run.{Run, setting_at, offset_in, observation_width};
ghost use Rattle.table.specs.Directory.{starts_of};
ghost use Rattle.registers.specs.Words.{Eight, due_in};
ghost use Rattle.machine.specs.Running.{RowsStand};
ghost use Rattle.run.specs.Ends.{Begun, PartEnds, EndsAs, FirstLate, Calm, Ticks, WordsPut, NodeStarted, Started, PlannedApart};

use model::End;

// The tick that stands in a node's first observation.
const NO_WORK: u64 = 4294967295;

// How a run ended: the end, the tick, the choices used, the observations written.
#[derive(Clone, Copy)]
pub struct Ended {
    pub end: End,
    pub tick: u64,
    pub used: usize,
    pub written: usize,
}

// Whether a sleep or a listen is due.
pub fn some_due(words: &[u64], count: usize, tick: u64) -> bool
    requires { (256 ≤ length words.now) × (count ≤ 8) }
    ensures { result ≡ any (λ c. eqb (due_in words.now c) tick) (below count) }
{
    for c in 0..count {
        if registers::word(words, c, registers::DUE) == tick {
            return true;
        }
    }
    false
}

// The lowest node that is late at that tick.
pub fn first_late(words: &[u64], count: usize, tick: u64) -> Option<usize>
    requires { (256 ≤ length words.now) × (count ≤ 8) }
    ensures first { FirstLate words.now count tick (unwrap_or result count) }
    ensures node { ForSome result (λ c. c < count) }
{
    for c in 0..count {
        if registers::word(words, c, registers::LAST) < tick {
            return Some(c);
        }
    }
    None
}

// A tick before the horizon up to which no node is due and none is late.
pub fn calm_until(words: &[u64], count: usize, horizon: u64) -> u64
    requires { (256 ≤ length words.now) × (count ≤ 8) }
    ensures { Calm words.now count horizon result }
{
    if horizon == 0 {
        return 0;
    }
    let mut calm = horizon - 1;
    for c in 0..count {
        let due = registers::word(words, c, registers::DUE);
        let last = registers::word(words, c, registers::LAST);
        calm = calm.min(due.min(last));
    }
    calm
}

// Four choices from a place on, added up: 1,020 if they are ticks.
fn sum_of_four(choices: &[u8], at: usize) -> u32
    requires { at + 4 ≤ length choices.now }
    ensures { (result ≤ 1020) × (result ≡ 1020 → Ticks choices.now at (at + 4)) }
{
    let first = parts::wide32(choices[at]) + parts::wide32(choices[at + 1]);
    first + (parts::wide32(choices[at + 2]) + parts::wide32(choices[at + 3]))
}

// How far the choices from a place on are ticks, eight looked at together.
fn ticks_by_eight(choices: &[u8], from: usize, end: usize) -> usize
    requires { (from ≤ end) × (end ≤ length choices.now) }
    ensures { (from ≤ result) × (result ≤ end) × Ticks choices.now from result }
{
    if end < 8 {
        return from;
    }
    let last = end - 8;
    let mut at = from;
    // A while: it goes on by eight, and where it stops is the answer.
    while at <= last {
        if sum_of_four(choices, at) + sum_of_four(choices, at + 4) != 2040 {
            return at;
        }
        at += 8;
    }
    at
}

// The same, one by one.
fn ticks_by_one(choices: &[u8], from: usize, end: usize) -> usize
    requires { (from ≤ end) × (end ≤ length choices.now) }
    ensures { (from ≤ result) × (result ≤ end) × Ticks choices.now from result }
{
    for at in from..end {
        if choices[at] != 255 {
            return at;
        }
    }
    end
}

// How many of the choices from a place on are ticks, so many at most; the first one is.
fn ticks_in_a_row(choices: &[u8], from: usize, most: u64) -> usize
    requires { (from < length choices.now) × (1 ≤ most) × (get_or choices.now from 0 ≡ 255) }
    ensures { (1 ≤ result) × (result ≤ most) × (from + result ≤ length choices.now) × Ticks choices.now from (from + result) }
{
    let end = from + most.min((choices.len() - from) as u64) as usize;
    let at = ticks_by_eight(choices, from + 1, end);
    ticks_by_one(choices, at, end) - from
}

pub fn end_of(end: End, tick: u64, used: usize, written: usize) -> Ended
    ensures { (result.end ≡ end) × (result.tick ≡ tick) × (result.used ≡ used) × (result.written ≡ written) }
{
    Ended {
        end,
        tick,
        used,
        written,
    }
}

// Carries out the list of choices, or of a run that goes on the rest of it: from that tick on, so many observations written. The number of choices used is
// that of these.
pub fn carry_out(
    program: &[u8],
    rows: &[u32],
    passages: usize,
    count: usize,
    horizon: u64,
    choices: &[u8],
    since: u64,
    seen: usize,
    words: &mut [u64],
    values: &mut [i16],
    out: &mut [u8],
) -> Ended
    requires { (s : Run) × (lent : List ℕ) × Begun program.now horizon rows.now passages words.old values.old count choices.now out.old since seen s lent }
    ensures { (s : Run) (lent : List ℕ) → Begun program.now horizon rows.now passages words.old values.old count choices.now out.old since seen s lent → PartEnds program.now horizon rows.now passages words.old count choices.now s lent result words.new values.new out.new }
{
    let mut tick = since;
    let mut used: usize = 0;
    let mut written = seen;
    // A while: how many choices are carried out at once is read from them.
    while used < choices.len() {
        let choice = choices[used];
        if choice == 255 {
            let calm = calm_until(words, count, horizon);
            if tick < calm {
                let k = ticks_in_a_row(choices, used, calm - tick);
                tick += k as u64;
                used += k;
            } else {
                if some_due(words, count, tick) {
                    return end_of(End::NotAllowed, tick, used, written);
                }
                tick += 1;
                used += 1;
                if let Some(c) = first_late(words, count, tick) {
                    return end_of(End::Late(c as u8), tick, used, written);
                }
                if tick == horizon {
                    return end_of(End::Horizon, tick, used, written);
                }
            }
        } else {
            let Some(now) = machine::choose_node(
                program, rows, passages, count, words, values, tick, choice, out, written,
            ) else {
                return end_of(End::NotAllowed, tick, used, written);
            };
            written = now;
            used += 1;
        }
    }
    end_of(End::UsedUp, tick, used, written)
}

// Words 21 to 25, 28 and 29 of node c: its part, its counts, its row, the tick at which it wakes, and that no work of it has finished.
fn put_fixed(
    words: &mut [u64],
    c: usize,
    start: usize,
    long: usize,
    clocks: u8,
    variables: u8,
    row: usize,
    wake: u32,
)
    requires { (256 ≤ length words.old) × (c < 8) }
    ensures { WordsPut words.old c start long clocks variables row wake words.new }
{
    registers::put_word(words, c, registers::PART_START, start as u64);
    registers::put_word(words, c, registers::PART_LENGTH, long as u64);
    registers::put_word(words, c, registers::CLOCK_COUNT, clocks as u64);
    registers::put_word(words, c, registers::VARIABLE_COUNT, variables as u64);
    registers::put_word(words, c, registers::ROW, row as u64);
    registers::put_word(words, c, registers::WAKE_TICK, wake as u64);
    registers::put_word(words, c, registers::FINISH_TICK, NO_WORK);
}

// Node c at its program's start; its component stands at that place of the table, and it wakes at that tick.
fn start_node(
    table: &[u8],
    at: usize,
    program: &[u8],
    rows: &[u32],
    passages: usize,
    words: &mut [u64],
    values: &mut [i16],
    c: usize,
    wake: u32,
)
    requires { Eight words.old values.old × RowsStand rows.now passages × (c < 8) × (at + 6 ≤ length table.now) × (byte table.now (at + 4) ≤ 4) × (byte table.now (at + 5) ≤ 4) × (wake ≤ 1000) }
    ensures { NodeStarted program.now rows.now passages (byte table.now (at + 4)) (byte table.now (at + 5)) wake words.old values.old c words.new values.new }
{
    let span = program::span_of(program, c as u8);
    let start = span.start;
    let long = span.long;
    let row = machine::next_row(rows, passages, c, 0);
    put_fixed(
        words,
        c,
        start,
        long,
        table[at + 4],
        table[at + 5],
        row,
        wake,
    );
    let begun = stand::start_node(&program[start..start + long]);
    machine::put_node(program, rows, passages, words, values, c, begun);
}

// The offset of node c, 0 where none is handed.
fn offset_of(offsets: &[u32], c: usize) -> u32
    ensures { result ≡ offset_in offsets.now c }
{
    if c < offsets.len() { offsets[c] } else { 0 }
}

// All nodes at their programs' start.
pub fn start(
    table: &[u8],
    starts: [u16; 8],
    program: &[u8],
    rows: &[u32],
    passages: usize,
    offsets: &[u32],
    words: &mut [u64],
    values: &mut [i16],
)
    requires { Valid table.now × (starts ≡ starts_of table.now (byte table.now 3)) × Eight words.old values.old × RowsStand rows.now passages × ((c : ℕ) → c < byte table.now 3 → offset_in offsets.now c ≤ 1000) }
    ensures { Started table.now program.now rows.now passages offsets.now words.new values.new }
{
    let count = usize::from(table[3]);
    for c in 0..count {
        start_node(
            table,
            starts[c] as usize,
            program,
            rows,
            passages,
            words,
            values,
            c,
            offset_of(offsets, c),
        );
    }
}

// The run of the table whose program this is.
fn run_program(
    table: &[u8],
    starts: [u16; 8],
    program: &[u8],
    rows: &[u32],
    passages: usize,
    offsets: &[u32],
    choices: &[u8],
    out: &mut [u8],
) -> Ended
    requires { Valid table.now × (starts ≡ starts_of table.now (byte table.now 3)) × (program.now ≡ program_bytes (read_of table.now)) × PlannedApart table.now rows.now passages offsets.now × (passages * observation_width ≤ length out.old) × (length choices.now ≤ 1000000) }
    ensures { (G : ℕ) (S : List Passage) → accepted_schedule_at G (read_of table.now) ≡ accepted S → EndsAs (setting_at (read_of table.now) (read_of table.now).horizon S offsets.now) choices.now out.old result out.new }
{
    let mut words = [0u64; 256];
    let mut values = [0i16; 32];
    start(
        table,
        starts,
        program,
        rows,
        passages,
        offsets,
        &mut words,
        &mut values,
    );
    let count = table[3] as usize;
    let horizon = parts::word_at(table, 5) as u64;
    carry_out(
        program,
        rows,
        passages,
        count,
        horizon,
        choices,
        0,
        0,
        &mut words,
        &mut values,
        out,
    )
}

// The same, its program written to the bytes lent.
fn run_in(
    table: &[u8],
    starts: [u16; 8],
    program: &mut [u8],
    rows: &[u32],
    passages: usize,
    offsets: &[u32],
    choices: &[u8],
    out: &mut [u8],
) -> Ended
    requires { Valid table.now × (starts ≡ starts_of table.now (byte table.now 3)) × (length (program_bytes (read_of table.now)) ≤ length program.old) × PlannedApart table.now rows.now passages offsets.now × (passages * observation_width ≤ length out.old) × (length choices.now ≤ 1000000) }
    ensures { (G : ℕ) (S : List Passage) → accepted_schedule_at G (read_of table.now) ≡ accepted S → EndsAs (setting_at (read_of table.now) (read_of table.now).horizon S offsets.now) choices.now out.old result out.new }
{
    let long = translator::write_program(table, starts, program);
    run_program(
        table,
        starts,
        &program[..long],
        rows,
        passages,
        offsets,
        choices,
        out,
    )
}

// Runs the programs of a table accepted at a spread, whose schedule stands in the rows, with offsets up to the spread.
pub fn run_table(
    table: &[u8],
    starts: [u16; 8],
    rows: &[u32],
    passages: usize,
    offsets: &[u32],
    choices: &[u8],
    out: &mut [u8],
) -> Ended
    requires { Valid table.now × (starts ≡ starts_of table.now (byte table.now 3)) × PlannedApart table.now rows.now passages offsets.now × (passages * observation_width ≤ length out.old) × (length choices.now ≤ 1000000) }
    ensures { (G : ℕ) (S : List Passage) → accepted_schedule_at G (read_of table.now) ≡ accepted S → EndsAs (setting_at (read_of table.now) (read_of table.now).horizon S offsets.now) choices.now out.old result out.new }
{
    if translator::program_length(table, starts) <= 2048 {
        let mut program = [0u8; 2048];
        return run_in(
            table,
            starts,
            &mut program,
            rows,
            passages,
            offsets,
            choices,
            out,
        );
    }
    let mut program = [0u8; 24576];
    run_in(
        table,
        starts,
        &mut program,
        rows,
        passages,
        offsets,
        choices,
        out,
    )
}
