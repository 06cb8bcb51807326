// The words of the programs for other languages: every exported call and nothing else. Each is a thin function over the function that its program
// prints the words of, laid over the front of the bytes lent.
#![tactic(auto)]

ghost use Rattle.std.specs.Prelude.{◌≡◌, ◌≤◌, length, take};
ghost use Rattle.io.specs.Counts.{IsPrefixLen};
ghost use Rattle.refusal_text.specs.RefusalText.{refusal_text};
ghost use Rattle.schedule_text.specs.ScheduleText.{printed_schedule};
ghost use Rattle.verdict_text.specs.VerdictText.{verdict_text_at};
ghost use Rattle.reason_text.specs.ReasonText.{printed_reasons};
ghost use Rattle.run_words.specs.PrintedRun.{printed_run};
ghost use Rattle.simulation_text.specs.SimulationText.{printed_simulation};
ghost use Rattle.chart_words.specs.ChartText.{printed_chart};
ghost use Rattle.listing_text.specs.ListingText.{listing_text};
ghost use Rattle.timed_network_words.specs.Laid.{WordsOf, SpreadWordsOf};

// 0, or 13 where the bytes lent do not hold the text; and how many bytes it has, in both cases. C has it as it stands.
#[repr(C)]
#[derive(Clone, Copy)]
pub struct WordsNumbers {
    pub number: u8,
    pub size: usize,
}

// The words, laid over the front of the bytes lent, if these hold them.
fn lay(words: &[u8], out: &mut [u8]) -> WordsNumbers
    ensures { WordsOf words.now out.old result out.new }
{
    let size = words.len();
    if out.len() < size {
        return WordsNumbers { number: 13, size };
    }
    words::copy(out, 0, words);
    WordsNumbers { number: 0, size }
}

// A table's schedule, as `schedule_printer` prints it.
#[unsafe(no_mangle)]
pub extern "C" fn timed_network_words_schedule(table: &[u8], out: &mut [u8]) -> WordsNumbers
    ensures { WordsOf (printed_schedule table.now) out.old result out.new × (result.size ≤ 78874) }
{
    let mut text = [0u8; schedule_words::ROOM];
    let n = schedule_words::write(table, &mut text);
    lay(&text[..n], out)
}

// A table's verdict at a spread, as `verdict_printer` prints it.
#[unsafe(no_mangle)]
pub extern "C" fn timed_network_words_verdict(
    table: &[u8],
    spread: u32,
    out: &mut [u8],
) -> WordsNumbers
    ensures { WordsOf (verdict_text_at spread table.now) out.old result out.new × (result.size ≤ 164930) }
{
    let mut text = [0u8; verdict_words::ROOM];
    let n = verdict_words::write(table, spread, &mut text);
    lay(&text[..n], out)
}

// Why a component took the edge that it passes over at a tick, as `reason_printer` prints it.
#[unsafe(no_mangle)]
pub extern "C" fn timed_network_words_reasons(
    table: &[u8],
    component: u32,
    tick: u32,
    out: &mut [u8],
) -> WordsNumbers
    ensures { WordsOf (printed_reasons table.now component tick) out.old result out.new × (result.size ≤ 6000) }
{
    let mut text = [0u8; reason_words::ROOM];
    let n = reason_words::write(table, component, tick, &mut text);
    lay(&text[..n], out)
}

// A run under a list of choices, of nodes that wake apart by a spread and offsets, as `trial_run` prints it.
#[unsafe(no_mangle)]
pub extern "C" fn timed_network_words_run(
    table: &[u8],
    choices: &[u8],
    spread: u32,
    offsets: &[u32],
    out: &mut [u8],
) -> WordsNumbers
    ensures { WordsOf (printed_run spread table.now offsets.now choices.now) out.old result out.new × (result.size ≤ 225700) }
{
    let mut text = [0u8; run_words::ROOM];
    let n = run_words::write(table, choices, spread, offsets, &mut text);
    lay(&text[..n], out)
}

// Simulated runs, as `simulate_runs` prints them.
#[unsafe(no_mangle)]
pub extern "C" fn timed_network_words_simulation(
    table: &[u8],
    lo: u32,
    hi: u32,
    runs: u32,
    seed: u32,
    out: &mut [u8],
) -> WordsNumbers
    ensures { WordsOf (printed_simulation table.now lo hi runs seed) out.old result out.new × (result.size ≤ 300) }
{
    let mut text = [0u8; simulation_words::ROOM];
    let n = simulation_words::write(table, lo, hi, runs, seed, &mut text);
    lay(&text[..n], out)
}

// The largest spread at which a table is accepted, as `spread_printer` prints it.
#[unsafe(no_mangle)]
pub extern "C" fn timed_network_words_spread(table: &[u8], out: &mut [u8]) -> WordsNumbers
    ensures { SpreadWordsOf table.now out.old result out.new × (result.size ≤ 170) }
{
    let mut text = [0u8; spread_words::ROOM];
    let n = spread_words::write(table, &mut text);
    lay(&text[..n], out)
}

// A table's schedule as a chart, as `chart_printer` prints it.
#[unsafe(no_mangle)]
pub extern "C" fn timed_network_words_chart(table: &[u8], out: &mut [u8]) -> WordsNumbers
    ensures { WordsOf (printed_chart table.now) out.old result out.new × (result.size ≤ 552) }
{
    let mut text = [0u8; chart_words::ROOM];
    let n = chart_words::write(table, &mut text);
    lay(&text[..n], out)
}

// No refusal in words is longer.
const REFUSAL: usize = 170;

// A refusal in words, at the front of an array, whose length nobody has to prove.
fn put_refusal(number: u8, component: u8, out: &mut [u8; REFUSAL]) -> usize
    ensures prefix_len { IsPrefixLen result out.new }
    ensures out_after { take result out.new ≡ refusal_text number component }
    ensures upper_bound { result ≤ 170 }
{
    refusal_text::put_refusal_text(out, 0, number, component)
}

// A refusal in words, as the programs print it, of any number and component.
#[unsafe(no_mangle)]
pub extern "C" fn timed_network_words_refusal(
    number: u8,
    component: u8,
    out: &mut [u8],
) -> WordsNumbers
    ensures { WordsOf (refusal_text number component) out.old result out.new × (result.size ≤ 170) }
{
    let mut text = [0u8; REFUSAL];
    let n = put_refusal(number, component, &mut text);
    lay(&text[..n], out)
}

// The most bytes that a program can state as its length, and one: `program_listing` reads no more.
const PROGRAM: usize = 65536;

// The bytes of a program that are listed.
fn listed<'a>(program: &'a [u8]) -> &'a [u8]
    ensures { (result.now ≡ take 65536 program.now) × (length result.now ≤ 65536) }
{
    if program.len() <= PROGRAM {
        return program;
    }
    &program[0..PROGRAM]
}

// A program's listing, as `program_listing` prints it: counted, then laid over the bytes lent if these hold it.
#[unsafe(no_mangle)]
pub extern "C" fn timed_network_words_listing(program: &[u8], out: &mut [u8]) -> WordsNumbers
    ensures { WordsOf (listing_text (take 65536 program.now)) out.old result out.new }
{
    let bytes = listed(program);
    let mut none = [0u8; 1];
    let size = listing_words::put_listing(&mut none, bytes);
    if size <= out.len() {
        listing_words::put_listing(out, bytes);
        return WordsNumbers { number: 0, size };
    }
    WordsNumbers { number: 13, size }
}
