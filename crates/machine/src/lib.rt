// The nodes together: one choice, and the whole list of choices (document 01, 'The run'). The programs' bytes are carried out; the rows of
// the schedule serve lateness alone.
#![tactic(auto)]

ghost use Rattle.std.specs.Prelude.{◌≡◌, true, cond, ◌&&◌, List, map, ℕ, ◌+◌, ◌-◌, ◌*◌, ◌≤◌, ◌<◌, leb, ℤ, length, drop, set};
ghost use Rattle.std.specs.Bool.{then_some};
ghost use Rattle.std.specs.Option.{ForSome};
ghost use Rattle.model.specs.Lists.{is_none, below};
ghost use Rattle.model.specs.Schedule.{own};
ghost use Rattle.model.specs.Machine.{finish};
ghost use Rattle.model.specs.Run.{Setting, Run, stand_of, names, listeners, takes_message, observation_width};
ghost use Rattle.rows.specs.Rows.{num, rows_of};
ghost use Rattle.node.specs.Views.{Held, Within, op_in, Addable};
ghost use Rattle.stand.specs.Stands.{never, may_finish};
ghost use Rattle.registers.specs.Words.{node_in, part_in, held_in, Eight, place_in, ready_tick_in, row_in, due_in, last_in, wake_tick_in, finish_tick_in};
ghost use Rattle.machine.specs.Running.{RowsStand, ready_at, view_in, finishes_work, NodeStands, Standing};
ghost use Rattle.machine.specs.Chosen.{op_of, Inside, Noted, NodePut, RowPassed, IsFirst, NodeMoved, observes_now, Chosen, ChosenUnseen};

use model::{layout, op};
use node::Node;

// The first row from a row on that is of component c, the number of rows where there is none: a word of the node keeps it, and the clause takes it
// as the place behind which no row is left.
pub fn next_row(rows: &[u32], passages: usize, c: usize, from: usize) -> usize
    requires { RowsStand rows.now passages × (c < 8) × (from ≤ passages) }
    ensures { (result ≤ passages) × (own c (drop result (rows_of rows.now passages)) ≡ own c (drop from (rows_of rows.now passages))) × (result < passages → num rows.now result 0 ≡ c) }
{
    for i in from..passages {
        if rows::index(rows, i, rows::COMPONENT) == c {
            return i;
        }
    }
    passages
}

// The ready of a row; past the last row a tick that no run reaches.
fn next_ready(rows: &[u32], passages: usize, row: usize) -> u64
    requires { RowsStand rows.now passages }
    ensures { (result ≡ ready_at (rows_of rows.now passages) row) × (result ≤ never) }
{
    if row < passages {
        return rows::number(rows, row, rows::READY) as u64;
    }
    stand::NEVER
}

// Puts when node c is due and when it is late, by its own clock, into its words, by the common tick: as much later as it wakes.
fn put_ticks(words: &mut [u64], c: usize, due: u64, last: u64)
    requires { (256 ≤ length words.old) × (c < 8) × (wake_tick_in words.old c ≤ 1000) × (due ≤ never) × (last ≤ never) }
    ensures { words.new ≡ set (set words.old (c * 32 + 26) (due + wake_tick_in words.old c)) (c * 32 + 27) (last + wake_tick_in words.old c) }
{
    let wake = registers::word(words, c, registers::WAKE_TICK);
    registers::put_word(words, c, registers::DUE, due + wake);
    registers::put_word(words, c, registers::LAST, last + wake);
}

// Notes when node c is due and when it is late; the part is its own, and its next statement stands at that place.
fn note(part: &[u8], rows: &[u32], passages: usize, words: &mut [u64], c: usize, pc: usize)
    requires { (256 ≤ length words.old) × RowsStand rows.now passages × (c < 8) × (ready_tick_in words.old c ≤ 4000000000000000000) × (pc ≡ place_in words.old c) × (wake_tick_in words.old c ≤ 1000) }
    ensures { Noted part.now rows.now passages words.old c words.new }
{
    let op = node::op_at(part, pc);
    let ready = registers::word(words, c, registers::READY_TICK);
    let window = registers::half(registers::word(words, c, registers::WINDOW_LENGTH));
    let next = next_ready(
        rows,
        passages,
        registers::word(words, c, registers::ROW) as usize,
    );
    let due = stand::due_by(op, ready, window);
    let last = stand::last_by(op, ready, window, next);
    put_ticks(words, c, due, last);
}

// Whether the statement at a place is a sleep, work or an update.
fn is_timed(part: &[u8], at: usize) -> bool
    ensures { result ≡ leb (op_in (drop at part.now)) 5 }
{
    if part.len() < 4 {
        return false;
    }
    if part.len() - 4 < at {
        return false;
    }
    part[at] <= op::LISTEN
}

// The same after a statement with that op. Only a sleep, work and an update are due, or late by their window: between two others nothing changes.
fn note_next(
    part: &[u8],
    rows: &[u32],
    passages: usize,
    words: &mut [u64],
    c: usize,
    op: u8,
    pc: usize,
)
    requires { (256 ≤ length words.old) × RowsStand rows.now passages × (c < 8) × (ready_tick_in words.old c ≤ 4000000000000000000) × (pc ≡ place_in words.old c) × (wake_tick_in words.old c ≤ 1000) × (5 < op → (due_in words.old c ≡ never + wake_tick_in words.old c) × (last_in words.old c ≡ ready_at (rows_of rows.now passages) (row_in words.old c) + wake_tick_in words.old c)) }
    ensures { Noted part.now rows.now passages words.old c words.new }
{
    if op::AGE <= op {
        if !is_timed(part, pc) {
            return;
        }
    }
    note(part, rows, passages, words, c, pc);
}

// Puts the registers of node c back, and notes when it is due and when it is late.
pub fn put_node(
    program: &[u8],
    rows: &[u32],
    passages: usize,
    words: &mut [u64],
    values: &mut [i16],
    c: usize,
    next: Node,
)
    requires { Eight words.old values.old × RowsStand rows.now passages × (c < 8) × Inside program.now words.old c × Within 4000000000000000000 next × (wake_tick_in words.old c ≤ 1000) }
    ensures { NodePut program.now rows.now passages words.old values.old c next words.new values.new }
{
    registers::store(words, values, c, next);
    let base = registers::word(words, c, registers::PART_START) as usize;
    let end = base + registers::word(words, c, registers::PART_LENGTH) as usize;
    note(&program[base..end], rows, passages, words, c, next.pc);
}

// After a sleep: the row of node c's next passage.
fn pass_row(rows: &[u32], passages: usize, words: &mut [u64], c: usize)
    requires { (256 ≤ length words.old) × RowsStand rows.now passages × (c < 8) }
    ensures { RowPassed rows.now passages words.old c words.new }
{
    let row = registers::word(words, c, registers::ROW) as usize;
    if row < passages {
        let next = next_row(rows, passages, c, row + 1);
        registers::put_word(words, c, registers::ROW, next as u64);
    }
}

// Notes that tick of node c's own clock as the one at which its last work finished, if a statement with that op finishes a work.
fn note_finish(words: &mut [u64], c: usize, op: u8, tick: u64)
    requires { (256 ≤ length words.old) × (c < 8) }
    ensures { words.new ≡ cond (finishes_work op) (set words.old (c * 32 + 29) tick) words.old }
{
    if op < op::DONE {
        return;
    }
    if op::LISTEN < op {
        return;
    }
    registers::put_word(words, c, registers::FINISH_TICK, tick);
}

// Node c finishes its statement, whose op that is, at that tick of its own clock.
fn finish_node(
    program: &[u8],
    rows: &[u32],
    passages: usize,
    words: &mut [u64],
    values: &mut [i16],
    c: usize,
    op: u8,
    tick: u64,
)
    requires { Eight words.old values.old × RowsStand rows.now passages × (c < 8) × NodeStands program.now rows.now passages words.old values.old c 3000000000000000000 × (op ≡ op_of program.now words.old values.old c) × Addable (drop (place_in words.old c) (part_in program.now words.old c)) (held_in words.old c) (node_in words.old values.old c) }
    ensures { NodeMoved program.now rows.now passages words.old values.old c (finish (part_in program.now words.old c) (view_in program.now words.old values.old c) (view_in program.now words.old values.old c).rest) words.new values.new × (finish_tick_in words.new c ≡ cond (finishes_work op) tick (finish_tick_in words.old c)) }
{
    let base = registers::word(words, c, registers::PART_START) as usize;
    let end = base + registers::word(words, c, registers::PART_LENGTH) as usize;
    if op == op::SLEEP {
        pass_row(rows, passages, words, c);
    }
    let pc = statement::finish(&program[base..end], words, values, c, op);
    note_next(&program[base..end], rows, passages, words, c, op, pc);
    note_finish(words, c, op, tick);
}

// The same, where its statement is one of a trial.
fn try_node(
    program: &[u8],
    rows: &[u32],
    passages: usize,
    words: &mut [u64],
    values: &[i16],
    c: usize,
    op: u8,
)
    requires { Eight words.old values.now × RowsStand rows.now passages × (c < 8) × NodeStands program.now rows.now passages words.old values.now c 3000000000000000000 × (op ≡ op_of program.now words.old values.now c) × (10 ≤ op) × (15 < op → op ≡ 18) }
    ensures { NodeMoved program.now rows.now passages words.old values.now c (finish (part_in program.now words.old c) (view_in program.now words.old values.now c) (view_in program.now words.old values.now c).rest) words.new values.now × (finish_tick_in words.new c ≡ finish_tick_in words.old c) }
{
    let base = registers::word(words, c, registers::PART_START) as usize;
    let end = base + registers::word(words, c, registers::PART_LENGTH) as usize;
    let pc = statement::finish_trial(&program[base..end], words, values, c, op);
    note_next(&program[base..end], rows, passages, words, c, op, pc);
}

// Node i takes a message on the channel, at that tick of its own clock.
fn hear(
    program: &[u8],
    rows: &[u32],
    passages: usize,
    words: &mut [u64],
    values: &mut [i16],
    i: usize,
    channel: u8,
    tick: u64,
)
    requires { Eight words.old values.old × RowsStand rows.now passages × (i < 8) × NodeStands program.now rows.now passages words.old values.old i 3000000000000000000 × (op_of program.now words.old values.old i ≡ 5) }
    ensures { NodeMoved program.now rows.now passages words.old values.old i (takes_message (part_in program.now words.old i) channel (view_in program.now words.old values.old i)) words.new values.new × (finish_tick_in words.new i ≡ tick) }
{
    let base = registers::word(words, i, registers::PART_START) as usize;
    let end = base + registers::word(words, i, registers::PART_LENGTH) as usize;
    let before = registers::load(words, values, i);
    let next = stand::take_message(&program[base..end], before, channel);
    put_node(program, rows, passages, words, values, i, next);
    registers::put_word(words, i, registers::FINISH_TICK, tick);
}

// The clock of node c at a common tick: 0 until it wakes.
fn own_tick(words: &[u64], c: usize, tick: u64) -> u64
    requires { (256 ≤ length words.now) × (c < 8) }
    ensures { result ≡ tick - wake_tick_in words.now c }
{
    let since = registers::word(words, c, registers::WAKE_TICK);
    if tick < since { 0 } else { tick - since }
}

// The common tick at which the window of node c began.
fn began(words: &[u64], c: usize) -> u64
    requires { (256 ≤ length words.now) × (c < 8) × (ready_tick_in words.now c ≤ 4000000000000000000) × (wake_tick_in words.now c ≤ 1000) }
    ensures { result ≡ ready_tick_in words.now c + wake_tick_in words.now c }
{
    registers::word(words, c, registers::READY_TICK)
        + registers::word(words, c, registers::WAKE_TICK)
}

// Whether node i stands at a listen that names the channel, has taken nothing, and has listened since that common tick or longer.
fn hears(program: &[u8], words: &[u64], i: usize, since: u64, channel: u8) -> bool
    requires { (256 ≤ length words.now) × (i < 8) × Inside program.now words.now i × (ready_tick_in words.now i ≤ 4000000000000000000) × (wake_tick_in words.now i ≤ 1000) }
    ensures { (values : List ℤ) → result ≡ names channel (stand_of (view_in program.now words.now values i)) && is_none (view_in program.now words.now values i).goes && leb (ready_tick_in words.now i + wake_tick_in words.now i) since }
{
    if since < began(words, i) {
        return false;
    }
    if registers::word(words, i, registers::TAKEN) == 1 {
        return false;
    }
    let base = registers::word(words, i, registers::PART_START) as usize;
    let end = base + registers::word(words, i, registers::PART_LENGTH) as usize;
    let pc = registers::word(words, i, registers::PLACE) as usize;
    stand::names(&program[base..end], pc, channel)
}

// The lowest node that hears a send of node c on the channel.
fn listener(program: &[u8], words: &[u64], count: usize, c: usize, channel: u8) -> Option<usize>
    requires { (256 ≤ length words.now) × (count ≤ 8) × (c < count) × ((i : ℕ) → i < count → Inside program.now words.now i × (ready_tick_in words.now i ≤ 4000000000000000000) × (wake_tick_in words.now i ≤ 1000)) }
    ensures first { (values : List ℤ) (g : Setting) (s : Run) → g.offsets ≡ map (wake_tick_in words.now) (below count) → s.nodes ≡ map (view_in program.now words.now values) (below count) → IsFirst (listeners g s c channel) result }
    ensures stands { ForSome result (λ i. (i < count) × ((i ≡ c) → ⊥) × (op_in (drop (place_in words.now i) (part_in program.now words.now i)) ≡ 5)) }
{
    let since = began(words, c);
    for i in 0..count {
        if i != c {
            if hears(program, words, i, since, channel) {
                return Some(i);
            }
        }
    }
    None
}

// Node c, which stands at a send, finishes it at that common tick, and its listener takes the message. Whether there is a listener: a bool, since
// nothing else is told of it, and why there is none is the table's matter.
fn send_message(
    program: &[u8],
    rows: &[u32],
    passages: usize,
    words: &mut [u64],
    values: &mut [i16],
    count: usize,
    c: usize,
    tick: u64,
) -> bool
    requires { Standing program.now rows.now passages words.old values.old count × (c < count) × (op_of program.now words.old values.old c ≡ 4) }
    ensures { (H written : ℕ) (out : List ℕ) → wake_tick_in words.old c ≤ tick → Chosen program.now rows.now passages H count tick c words.old values.old out written (then_some result written) words.new values.new out }
{
    let base = registers::word(words, c, registers::PART_START) as usize;
    let end = base + registers::word(words, c, registers::PART_LENGTH) as usize;
    let pc = registers::word(words, c, registers::PLACE) as usize;
    let channel = node::byte_at(&program[base..end], pc + 1);
    let Some(i) = listener(program, words, count, c, channel) else {
        return false;
    };
    let sent = own_tick(words, c, tick);
    let heard = own_tick(words, i, tick);
    finish_node(program, rows, passages, words, values, c, op::SEND, sent);
    hear(program, rows, passages, words, values, i, channel, heard);
    true
}

// Whether node c, whose statement's op that is, may finish it at that tick without another node.
fn may_finish(program: &[u8], words: &[u64], values: &[i16], c: usize, op: u8, tick: u64) -> bool
    requires { Eight words.now values.now × (c < 8) × Inside program.now words.now c × Held (held_in words.now c) × (ready_tick_in words.now c ≤ 4000000000000000000) × (op ≡ op_of program.now words.now values.now c) }
    ensures { result ≡ may_finish tick (view_in program.now words.now values.now c) (stand_of (view_in program.now words.now values.now c)) }
{
    let ready = registers::word(words, c, registers::READY_TICK);
    let window = registers::half(registers::word(words, c, registers::WINDOW_LENGTH));
    let kept = registers::word(words, c, registers::KEPT) == 1;
    if op == op::ADD {
        let base = registers::word(words, c, registers::PART_START) as usize;
        let end = base + registers::word(words, c, registers::PART_LENGTH) as usize;
        let at = registers::word(words, c, registers::PLACE) as usize;
        let part = &program[base..end];
        let value = registers::value(words, values, c, part[at + 1]);
        let fits = stand::adds_in_range(&part[at..], value);
        return stand::may_by(op, tick, ready, window, kept, fits);
    }
    stand::may_by(op, tick, ready, window, kept, true)
}

// Node c, which does not stand at a send, finishes its statement if it may at that tick of its own clock; a sleep is observed. How many
// observations are written then.
fn go_alone(
    program: &[u8],
    rows: &[u32],
    passages: usize,
    count: usize,
    words: &mut [u64],
    values: &mut [i16],
    c: usize,
    op: u8,
    tick: u64,
    out: &mut [u8],
    written: usize,
) -> Option<usize>
    requires { Standing program.now rows.now passages words.old values.old count × (c < count) × (op ≡ op_of program.now words.old values.old c) × (op_of program.now words.old values.old c ≡ 4 → ⊥) × (observes_now program.now words.old values.old c tick ≡ true → written * observation_width + observation_width ≤ length out.old) × (written ≤ 22700000000000) }
    ensures { (H common : ℕ) → wake_tick_in words.old c ≤ common → tick ≡ common - wake_tick_in words.old c → Chosen program.now rows.now passages H count common c words.old values.old out.old written result words.new values.new out.new }
{
    if statement::is_trial(op) {
        try_node(program, rows, passages, words, values, c, op);
        return Some(written);
    }
    if !may_finish(program, words, values, c, op, tick) {
        return None;
    }
    if op == op::SLEEP {
        let held = registers::counts(words, c);
        let before = registers::load(words, values, c);
        let previous = registers::word(words, c, registers::FINISH_TICK);
        observation::put_written(
            before,
            held,
            c as u8,
            tick,
            previous,
            out,
            written * layout::OBSERVATION_WIDTH,
        );
        finish_node(program, rows, passages, words, values, c, op::SLEEP, tick);
        return Some(written + 1);
    }
    finish_node(program, rows, passages, words, values, c, op, tick);
    Some(written)
}

// A choice: a node's number. Until it wakes it isn't allowed. How many observations are written after one that is.
pub fn choose_node(
    program: &[u8],
    rows: &[u32],
    passages: usize,
    count: usize,
    words: &mut [u64],
    values: &mut [i16],
    tick: u64,
    choice: u8,
    out: &mut [u8],
    written: usize,
) -> Option<usize>
    requires { Standing program.now rows.now passages words.old values.old count × (choice < 255) × (choice < count → wake_tick_in words.old choice ≤ tick → observes_now program.now words.old values.old choice (tick - wake_tick_in words.old choice) ≡ true → written * observation_width + observation_width ≤ length out.old) × (written ≤ 22700000000000) }
    ensures { (H : ℕ) → Chosen program.now rows.now passages H count tick choice words.old values.old out.old written result words.new values.new out.new }
{
    let c = choice as usize;
    if count <= c {
        return None;
    }
    let wake = registers::word(words, c, registers::WAKE_TICK);
    if tick < wake {
        return None;
    }
    let base = registers::word(words, c, registers::PART_START) as usize;
    let end = base + registers::word(words, c, registers::PART_LENGTH) as usize;
    let pc = registers::word(words, c, registers::PLACE) as usize;
    let op = node::op_at(&program[base..end], pc);
    if op == op::SEND {
        return send_message(program, rows, passages, words, values, count, c, tick).then_some(
            written,
        );
    }
    go_alone(
        program,
        rows,
        passages,
        count,
        words,
        values,
        c,
        op,
        tick - wake,
        out,
        written,
    )
}

// The same choice of node c, which stands at that op, where nobody reads what is observed: nothing is written. Whether it is allowed: a bool,
// since nothing else is told. (A second caller of `choose_node` would cost a run a call at each choice.)
pub fn move_node(
    program: &[u8],
    rows: &[u32],
    passages: usize,
    count: usize,
    words: &mut [u64],
    values: &mut [i16],
    tick: u64,
    c: usize,
    op: u8,
) -> bool
    requires { Standing program.now rows.now passages words.old values.old count × (c < count) × (op ≡ op_of program.now words.old values.old c) }
    ensures { (H : ℕ) → ChosenUnseen program.now rows.now passages H count tick c words.old values.old result words.new values.new }
{
    let since = registers::word(words, c, registers::WAKE_TICK);
    if tick < since {
        return false;
    }
    if op == op::SEND {
        return send_message(program, rows, passages, words, values, count, c, tick);
    }
    if !may_finish(program, words, values, c, op, tick - since) {
        return false;
    }
    finish_node(program, rows, passages, words, values, c, op, tick - since);
    true
}
