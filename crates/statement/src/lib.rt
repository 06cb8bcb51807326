// One statement, over the words of a node in the slices: only the words that it uses are read, and only those that it changes are put
// (document 01, 'The program', last paragraph). What it does is told by the leaf functions of `node`, which the lent registers share.
#![tactic(auto)]

ghost use Rattle.std.specs.Prelude.{◌≡◌, true, List, ◌≤◌, ◌<◌, ℤ, length, drop};
ghost use Rattle.model.specs.Lists.{All};
ghost use Rattle.model.specs.Reader.{byte};
ghost use Rattle.node.specs.Views.{Held, Within, op_in, Addable};
ghost use Rattle.registers.specs.Words.{clocks_in, node_in, held_in, Eight, place_in, ready_tick_in};
ghost use Rattle.statement.specs.Done.{Carried, Finished};

use model::op;
use node::Kept;

// A statement of a trial (0A to 0F, and 12), by a copy for each caller, of which one carries out such statements alone: a function with one caller
// is inlined, and most choices of a run are statements of a trial.
fn try_statement<const ALONE: bool>(statement: &[u8], words: &mut [u64], values: &[i16], c: usize)
    requires { (4 ≤ length statement.now) × (10 ≤ byte statement.now 0) × (15 < byte statement.now 0 → byte statement.now 0 ≡ 18) × Eight words.old values.now × (c < 8) × Held (held_in words.old c) }
    ensures { Carried statement.now words.old values.now c words.new values.now }
{
    let op = statement[0];
    if op == op::KEEP {
        let trial = registers::load_trial(words, c);
        let kept = registers::load_kept(words, c);
        let edge = statement[3];
        let next = node::candidate::keeps(trial, edge, kept);
        registers::put_kept(words, c, next);
        return;
    }
    if op == op::TRIAL {
        let none = node::candidate::no_trial();
        registers::put_trial(words, c, none);
        return;
    }
    let trial = registers::load_trial(words, c);
    if op < op::DATA_LOW {
        let clock = registers::clock(words, c, statement[1]);
        let next = node::by_clock(statement, trial, clock);
        registers::put_trial(words, c, next);
        return;
    }
    if op == op::BUDGET {
        let budget = parts::word_at(statement, 2);
        let next = node::candidate::met(trial, node::candidate::spans(trial, budget));
        registers::put_trial(words, c, next);
        return;
    }
    let value = registers::value(words, values, c, statement[1]);
    let next = node::by_value(statement, trial, value);
    registers::put_trial(words, c, next);
}

// Set (01) and add (02).
fn update_statement(statement: &[u8], words: &[u64], values: &mut [i16], c: usize)
    requires { (4 ≤ length statement.now) × (1 ≤ byte statement.now 0) × (byte statement.now 0 ≤ 2) × Eight words.now values.old × (c < 8) × Held (held_in words.now c) × Addable statement.now (held_in words.now c) (node_in words.now values.old c) }
    ensures { Carried statement.now words.now values.old c words.now values.new }
{
    let a = statement[1];
    if registers::small(registers::word(words, c, registers::VARIABLE_COUNT)) <= a {
        return;
    }
    let operand = decoder::signed_at(statement, 2);
    if statement[0] == op::SET {
        registers::put_value(values, c, a, operand);
    } else {
        let before = registers::value(words, values, c, a);
        let sum = node::sum(before, operand);
        registers::put_value(values, c, a, sum);
    }
}

// Age (07) and zero (08).
fn clock_statement(statement: &[u8], words: &mut [u64], c: usize)
    requires { (4 ≤ length statement.now) × (7 ≤ byte statement.now 0) × (byte statement.now 0 ≤ 8) × (256 ≤ length words.old) × (c < 8) × Held (held_in words.old c) × All (λ x. x ≤ 4000000000000000000) (clocks_in words.old c) }
    ensures { (values : List ℤ) → Carried statement.now words.old values c words.new values }
{
    let a = statement[1];
    if registers::small(registers::word(words, c, registers::CLOCK_COUNT)) <= a {
        return;
    }
    if statement[0] == op::ZERO {
        registers::put_clock(words, c, a, 0);
    } else {
        let delay = registers::half(registers::word(words, c, registers::READY_DELAY));
        let window = registers::half(registers::word(words, c, registers::WINDOW_LENGTH));
        let before = registers::clock(words, c, a);
        registers::put_clock(
            words,
            c,
            a,
            before + (node::wide64(delay) + node::wide64(window)),
        );
    }
}

// Enter (09): the location, after a message the paired one.
fn enter_statement(statement: &[u8], words: &mut [u64], c: usize)
    requires { (4 ≤ length statement.now) × (byte statement.now 0 ≡ 9) × (256 ≤ length words.old) × (c < 8) }
    ensures { (values : List ℤ) → Carried statement.now words.old values c words.new values }
{
    if registers::word(words, c, registers::TAKEN) == 1 {
        let to = registers::small(registers::word(words, c, registers::GOES));
        registers::put_location(words, c, to);
    } else {
        registers::put_location(words, c, statement[3]);
    }
}

// A statement of work or after it (00 to 09). Done, send and listen change no register.
fn work_statement(statement: &[u8], words: &mut [u64], values: &mut [i16], c: usize)
    requires { (4 ≤ length statement.now) × (byte statement.now 0 ≤ 9) × Eight words.old values.old × (c < 8) × Held (held_in words.old c) × Within 4000000000000000000 (node_in words.old values.old c) × Addable statement.now (held_in words.old c) (node_in words.old values.old c) }
    ensures { Carried statement.now words.old values.old c words.new values.new }
{
    let op = statement[0];
    if op == op::ENTER {
        enter_statement(statement, words, c);
        return;
    }
    if op == op::SLEEP {
        let sleeps = registers::word(words, c, registers::SLEEPS);
        registers::put_sleeps(words, c, sleeps + 1);
        return;
    }
    if op < op::DONE {
        update_statement(statement, words, values, c);
        return;
    }
    if op < op::AGE {
        return;
    }
    clock_statement(statement, words, c);
}

// Take (10): t moves by the old d, then by the new ready delay; with nothing kept there is no next statement.
fn take_edge(part: &[u8], words: &mut [u64], c: usize) -> usize
    requires { (256 ≤ length words.old) × (c < 8) × (op_in (drop (place_in words.old c) part.now) ≡ 16) × (ready_tick_in words.old c ≤ 4000000000000000000) }
    ensures { (values : List ℤ) → Finished part.now words.old values c result words.new values }
{
    let kept = registers::load_kept(words, c);
    if !kept.some {
        let end = part.len();
        registers::put_place(words, c, end);
        return end;
    }
    let to = node::block_place(
        part,
        parts::wide(node::byte_at(part, 2)) + parts::wide(kept.edge),
    );
    let window = node::candidate::left_of(kept.end, node::wide64(kept.ready));
    let before = registers::half(registers::word(words, c, registers::WINDOW_LENGTH));
    let ready = registers::word(words, c, registers::READY_TICK)
        + node::wide64(before)
        + node::wide64(kept.ready);
    registers::put_place(words, c, to);
    registers::put_passage(words, c, kept.edge, ready, kept.ready, window);
    let nothing = Kept {
        some: false,
        edge: 0,
        ready: 0,
        end: 0,
    };
    registers::put_kept(words, c, nothing);
    to
}

// Choose (11) goes to the present location's block.
fn choose_block(part: &[u8], words: &mut [u64], c: usize) -> usize
    requires { (256 ≤ length words.old) × (c < 8) × (op_in (drop (place_in words.old c) part.now) ≡ 17) }
    ensures { (values : List ℤ) → Finished part.now words.old values c result words.new values }
{
    let location = registers::small(registers::word(words, c, registers::LOCATION));
    let to = node::block_place(part, parts::wide(location));
    registers::put_place(words, c, to);
    to
}

// Node c finishes its statement, whose op that is. The place of the next one.
pub fn finish(part: &[u8], words: &mut [u64], values: &mut [i16], c: usize, op: u8) -> usize
    requires { (length part.now ≤ 65535) × Eight words.old values.old × (c < 8) × Held (held_in words.old c) × Within 4000000000000000000 (node_in words.old values.old c) × Addable (drop (place_in words.old c) part.now) (held_in words.old c) (node_in words.old values.old c) × (op ≡ op_in (drop (place_in words.old c) part.now)) }
    ensures { Finished part.now words.old values.old c result words.new values.new }
{
    let at = registers::word(words, c, registers::PLACE) as usize;
    if op == node::NOWHERE {
        return at;
    }
    if op == op::TAKE {
        return take_edge(part, words, c);
    }
    if op == op::CHOOSE {
        return choose_block(part, words, c);
    }
    let statement = &part[at..];
    if op < op::TRIAL {
        let to = at + node::statement_length(statement);
        registers::put_place(words, c, to);
        work_statement(statement, words, values, c);
        return to;
    }
    let to = at + 4;
    registers::put_place(words, c, to);
    try_statement::<false>(statement, words, values, c);
    to
}

// Whether a statement with that op is one of a trial.
pub fn is_trial(op: u8) -> bool
    ensures { result ≡ true → (10 ≤ op) × (15 < op → op ≡ 18) }
{
    if op == op::BUDGET {
        return true;
    }
    if op < op::TRIAL {
        return false;
    }
    op < op::TAKE
}

// Node c finishes its statement, one of a trial. The place of the next one.
pub fn finish_trial(part: &[u8], words: &mut [u64], values: &[i16], c: usize, op: u8) -> usize
    requires { (length part.now ≤ 65535) × Eight words.old values.now × (c < 8) × Held (held_in words.old c) × (op ≡ op_in (drop (place_in words.old c) part.now)) × (10 ≤ op) × (15 < op → op ≡ 18) }
    ensures { Finished part.now words.old values.now c result words.new values.now }
{
    let at = registers::word(words, c, registers::PLACE) as usize;
    let statement = &part[at..];
    let to = at + 4;
    registers::put_place(words, c, to);
    try_statement::<true>(statement, words, values, c);
    to
}
