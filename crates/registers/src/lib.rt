// The registers of eight nodes as numbers in two lent slices, 32 words and four variables a node, so that a choice touches one node and
// copies no other.
#![tactic(auto)]

ghost use Rattle.std.specs.Prelude.{◌≡◌, List, ℕ, ◌+◌, ◌*◌, ◌%◌, ◌≤◌, ◌<◌, ℤ, length, set, take};
ghost use Rattle.std.proofs.lemmas.List.Edits.{sets};
ghost use Rattle.model.specs.Window.{clock_at, value_at};
ghost use Rattle.node.specs.Views.{Held};
ghost use Rattle.registers.specs.Words.{flag_of, word_in, clocks_in, values_in, trial_in, kept_in, node_in, held_in, time_words, place_words, trial_words, kept_words, four_of};
ghost use Rattle.registers.specs.Words.{Eight, Stored};
ghost use Rattle.registers.specs.Words.{at_place, with_clocks, with_values, entering, with_trial, with_kept, with_passage, with_sleeps};

use node::{Counts, Kept, Node, Trial};

// The words of a node, each by its number. Words 0 to 20 are the registers, 21 to 24 and 28 never change, 25 to 27 serve the ticks, 29 is when
// its last work finished.
pub const PLACE: usize = 0;

pub const READY_TICK: usize = 1;

pub const CLOCKS: usize = 2;

pub const READY_DELAY: usize = 6;

pub const WINDOW_LENGTH: usize = 7;

pub const LOCATION: usize = 8;

pub const EDGE: usize = 9;

pub const TAKEN: usize = 10;

pub const GOES: usize = 11;

pub const TRIAL_READY: usize = 12;

pub const TRIAL_ENDED: usize = 13;

pub const TRIAL_END: usize = 14;

pub const TRIAL_GOOD: usize = 15;

pub const KEPT: usize = 16;

pub const KEPT_EDGE: usize = 17;

pub const KEPT_READY: usize = 18;

pub const KEPT_END: usize = 19;

pub const SLEEPS: usize = 20;

pub const PART_START: usize = 21;

pub const PART_LENGTH: usize = 22;

pub const CLOCK_COUNT: usize = 23;

pub const VARIABLE_COUNT: usize = 24;

pub const ROW: usize = 25;

pub const DUE: usize = 26;

pub const LAST: usize = 27;

pub const WAKE_TICK: usize = 28;

pub const FINISH_TICK: usize = 29;

pub fn small(number: u64) -> u8
    ensures { result ≡ number % 256 }
{
    (number % 256) as u8
}

pub fn half(number: u64) -> u16
    ensures { result ≡ number % 65536 }
{
    (number % 65536) as u16
}

// 1 for true.
fn flag(truth: bool) -> u64
    ensures { result ≡ flag_of truth }
{
    if truth { 1 } else { 0 }
}

// Word k of node c.
pub fn word(words: &[u64], c: usize, k: usize) -> u64
    requires { (256 ≤ length words.now) × (c < 8) × (k < 32) }
    ensures { result ≡ word_in words.now c k }
{
    words[c * 32 + k]
}

pub fn put_word(words: &mut [u64], c: usize, k: usize, number: u64)
    requires { (256 ≤ length words.old) × (c < 8) × (k < 32) }
    ensures { words.new ≡ set words.old (c * 32 + k) number }
{
    words[c * 32 + k] = number;
}

// How many clocks and variables node c has.
pub fn counts(words: &[u64], c: usize) -> Counts
    requires { (256 ≤ length words.now) × (c < 8) }
    ensures { result ≡ held_in words.now c }
{
    Counts {
        clocks: small(word(words, c, CLOCK_COUNT)),
        variables: small(word(words, c, VARIABLE_COUNT)),
    }
}

// The trial of node c.
pub fn load_trial(words: &[u64], c: usize) -> Trial
    requires { (256 ≤ length words.now) × (c < 8) }
    ensures { result ≡ trial_in words.now c }
{
    Trial {
        ready: half(word(words, c, TRIAL_READY)),
        ended: word(words, c, TRIAL_ENDED) == 1,
        end: half(word(words, c, TRIAL_END)),
        good: word(words, c, TRIAL_GOOD) == 1,
    }
}

// The edge that node c keeps.
pub fn load_kept(words: &[u64], c: usize) -> Kept
    requires { (256 ≤ length words.now) × (c < 8) }
    ensures { result ≡ kept_in words.now c }
{
    Kept {
        some: word(words, c, KEPT) == 1,
        edge: small(word(words, c, KEPT_EDGE)),
        ready: half(word(words, c, KEPT_READY)),
        end: half(word(words, c, KEPT_END)),
    }
}

fn load_clocks(words: &[u64], c: usize) -> [u64; 4]
    requires { (256 ≤ length words.now) × (c < 8) }
    ensures { result ≡ clocks_in words.now c }
{
    [
        word(words, c, 2),
        word(words, c, 3),
        word(words, c, 4),
        word(words, c, 5),
    ]
}

fn load_values(values: &[i16], c: usize) -> [i16; 4]
    requires { (32 ≤ length values.now) × (c < 8) }
    ensures { result ≡ values_in values.now c }
{
    let at = c * 4;
    [values[at], values[at + 1], values[at + 2], values[at + 3]]
}

// The registers of node c.
pub fn load(words: &[u64], values: &[i16], c: usize) -> Node
    requires { Eight words.now values.now × (c < 8) }
    ensures { result ≡ node_in words.now values.now c }
{
    Node {
        pc: word(words, c, PLACE) as usize,
        location: small(word(words, c, LOCATION)),
        clocks: load_clocks(words, c),
        values: load_values(values, c),
        t: word(words, c, READY_TICK),
        n: half(word(words, c, READY_DELAY)),
        d: half(word(words, c, WINDOW_LENGTH)),
        edge: small(word(words, c, EDGE)),
        taken: word(words, c, TAKEN) == 1,
        goes: small(word(words, c, GOES)),
        tried: load_trial(words, c),
        kept: load_kept(words, c),
        sleeps: word(words, c, SLEEPS),
    }
}

// Words 0 to 5, from place at on.
fn store_times(words: &mut [u64], at: usize, pc: usize, ready: u64, clocks: [u64; 4])
    requires { at + 6 ≤ length words.old }
    ensures { words.new ≡ sets words.old at (time_words pc ready clocks) }
{
    words[at] = pc as u64;
    words[at + 1] = ready;
    words[at + 2] = clocks[0];
    words[at + 3] = clocks[1];
    words[at + 4] = clocks[2];
    words[at + 5] = clocks[3];
}

// Words 6 to 11, from place at on.
fn store_place(
    words: &mut [u64],
    at: usize,
    delay: u16,
    window: u16,
    location: u8,
    edge: u8,
    taken: bool,
    goes: u8,
)
    requires { at + 6 ≤ length words.old }
    ensures { words.new ≡ sets words.old at (place_words delay window location edge taken goes) }
{
    words[at] = delay as u64;
    words[at + 1] = window as u64;
    words[at + 2] = location as u64;
    words[at + 3] = edge as u64;
    words[at + 4] = flag(taken);
    words[at + 5] = goes as u64;
}

// Words 12 to 15, from place at on.
fn store_trial(words: &mut [u64], at: usize, trial: Trial)
    requires { at + 4 ≤ length words.old }
    ensures { words.new ≡ sets words.old at (trial_words trial) }
{
    words[at] = trial.ready as u64;
    words[at + 1] = flag(trial.ended);
    words[at + 2] = trial.end as u64;
    words[at + 3] = flag(trial.good);
}

// Words 16 to 19, from place at on.
fn store_kept(words: &mut [u64], at: usize, kept: Kept)
    requires { at + 4 ≤ length words.old }
    ensures { words.new ≡ sets words.old at (kept_words kept) }
{
    words[at] = flag(kept.some);
    words[at + 1] = kept.edge as u64;
    words[at + 2] = kept.ready as u64;
    words[at + 3] = kept.end as u64;
}

// The variables.
fn store_values(values: &mut [i16], at: usize, four: [i16; 4])
    requires { at + 4 ≤ length values.old }
    ensures { values.new ≡ sets values.old at (four_of four) }
{
    values[at] = four[0];
    values[at + 1] = four[1];
    values[at + 2] = four[2];
    values[at + 3] = four[3];
}

// Puts the registers of node c back.
pub fn store(words: &mut [u64], values: &mut [i16], c: usize, registers: Node)
    requires { Eight words.old values.old × (c < 8) }
    ensures { Stored words.old values.old c registers words.new values.new }
{
    let at = c * 32;
    let clocks = registers.clocks;
    let tried = registers.tried;
    let kept = registers.kept;
    let four = registers.values;
    store_times(words, at, registers.pc, registers.t, clocks);
    store_place(
        words,
        at + READY_DELAY,
        registers.n,
        registers.d,
        registers.location,
        registers.edge,
        registers.taken,
        registers.goes,
    );
    store_trial(words, at + TRIAL_READY, tried);
    store_kept(words, at + KEPT, kept);
    words[at + SLEEPS] = registers.sleeps;
    store_values(values, c * 4, four);
}

// Clock a of node c, 0 for one that the node does not have.
pub fn clock(words: &[u64], c: usize, a: u8) -> u64
    requires { (256 ≤ length words.now) × (c < 8) × Held (held_in words.now c) }
    ensures { result ≡ clock_at (take (held_in words.now c).clocks (clocks_in words.now c)) a }
{
    if a < small(word(words, c, CLOCK_COUNT)) {
        return word(words, c, CLOCKS + parts::wide(a));
    }
    0
}

// Variable a of node c, 0 for one that the node does not have.
pub fn value(words: &[u64], values: &[i16], c: usize, a: u8) -> i16
    requires { Eight words.now values.now × (c < 8) × Held (held_in words.now c) }
    ensures { result ≡ value_at (take (held_in words.now c).variables (values_in values.now c)) a }
{
    if a < small(word(words, c, VARIABLE_COUNT)) {
        return values[c * 4 + parts::wide(a)];
    }
    0
}

// Puts the place of node c's next statement.
pub fn put_place(words: &mut [u64], c: usize, pc: usize)
    requires { (256 ≤ length words.old) × (c < 8) }
    ensures { (values : List ℤ) → Stored words.old values c (at_place (node_in words.old values c) pc) words.new values }
{
    put_word(words, c, PLACE, pc as u64);
}

// Puts clock a of node c.
pub fn put_clock(words: &mut [u64], c: usize, a: u8, ticks: u64)
    requires { (256 ≤ length words.old) × (c < 8) × (a < 4) }
    ensures { (values : List ℤ) → Stored words.old values c (with_clocks (node_in words.old values c) (set (clocks_in words.old c) a ticks)) words.new values }
{
    put_word(words, c, CLOCKS + parts::wide(a), ticks);
}

// Puts variable a of node c.
pub fn put_value(values: &mut [i16], c: usize, a: u8, value: i16)
    requires { (32 ≤ length values.old) × (c < 8) × (a < 4) }
    ensures { (words : List ℕ) → Stored words values.old c (with_values (node_in words values.old c) (set (values_in values.old c) a value)) words values.new }
{
    values[c * 4 + parts::wide(a)] = value;
}

// Puts the location of node c; no message is taken.
pub fn put_location(words: &mut [u64], c: usize, location: u8)
    requires { (256 ≤ length words.old) × (c < 8) }
    ensures { (values : List ℤ) → Stored words.old values c (entering (node_in words.old values c) location) words.new values }
{
    put_word(words, c, LOCATION, location as u64);
    put_word(words, c, TAKEN, 0);
}

// Puts the trial of node c.
pub fn put_trial(words: &mut [u64], c: usize, trial: Trial)
    requires { (256 ≤ length words.old) × (c < 8) }
    ensures { (values : List ℤ) → Stored words.old values c (with_trial (node_in words.old values c) trial) words.new values }
{
    store_trial(words, c * 32 + TRIAL_READY, trial);
}

// Puts the edge that node c keeps.
pub fn put_kept(words: &mut [u64], c: usize, kept: Kept)
    requires { (256 ≤ length words.old) × (c < 8) }
    ensures { (values : List ℤ) → Stored words.old values c (with_kept (node_in words.old values c) kept) words.new values }
{
    store_kept(words, c * 32 + KEPT, kept);
}

// Puts the passage of node c: its edge, ready tick, ready delay and window length.
pub fn put_passage(words: &mut [u64], c: usize, edge: u8, ready: u64, delay: u16, window: u16)
    requires { (256 ≤ length words.old) × (c < 8) }
    ensures { (values : List ℤ) → Stored words.old values c (with_passage (node_in words.old values c) edge ready delay window) words.new values }
{
    put_word(words, c, READY_TICK, ready);
    put_word(words, c, READY_DELAY, delay as u64);
    put_word(words, c, WINDOW_LENGTH, window as u64);
    put_word(words, c, EDGE, edge as u64);
}

// Puts the number of sleeps that node c has finished.
pub fn put_sleeps(words: &mut [u64], c: usize, sleeps: u64)
    requires { (256 ≤ length words.old) × (c < 8) }
    ensures { (values : List ℤ) → Stored words.old values c (with_sleeps (node_in words.old values c) sleeps) words.new values }
{
    put_word(words, c, SLEEPS, sleeps);
}
