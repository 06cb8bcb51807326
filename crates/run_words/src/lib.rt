// All that is said of a run of a table's programs under a list of choices: the end in words, the tick, the choices used, the offsets where one is
// above 0, and the observations as a table; or `refused`, number, component and the question in words.
#![tactic(auto)]

ghost use Rattle.std.specs.Prelude.{◌≡◌, [], ◌++◌, ◌*◌, ◌≤◌, length, take};
ghost use Rattle.io.specs.Counts.{IsPrefixLen};
ghost use Rattle.model.specs.Run.{observation_width};
ghost use Rattle.text.specs.Words.{Added};
ghost use Rattle.run_text.specs.RunText.{end_text, counts_text, offsets_text, first_line, observation_lines, run_text, run_text_at};
ghost use Rattle.run_words.specs.PrintedRun.{printed_run};

use calls::Ran;
use model::{Verdict, layout};
use node_count::nodes_of;

// At most 384 bytes, and 220 for each observation.
pub const ROOM: usize = 225700;

// Room for the observations of 1,024 passages.
const OBSERVATIONS: usize = 1024 * layout::OBSERVATION_WIDTH;

// The end in words, the tick, the choices used, the offsets where one is above 0, and the observations as a table.
fn put_run(
    r: Ran,
    choices: &[u8],
    offsets: &[u32],
    nodes: usize,
    observations: &[u8],
    out: &mut [u8],
) -> usize
    requires { (225700 ≤ length out.old) × (r.size ≤ 1024) × (r.size * observation_width ≤ length observations.now) × (nodes ≤ 8) }
    ensures { Added out.old 0 (end_text r.end choices.now r.used ++ counts_text r.tick r.used r.size ++ offsets_text nodes offsets.now ++ first_line ++ observation_lines observations.now r.size) out.new result × (result ≤ 225700) }
{
    let end = r.end;
    let counts = run_text::put_end(out, 0, end, choices, r.used);
    let told = run_text::put_counts(out, counts, r.tick, r.used, r.size as u32);
    let first = run_text::put_offsets(out, told, offsets, nodes);
    let lines = text::put(
        out,
        first,
        b"node edge location  tick    x0    x1    x2    x3     v0     v1     v2     v3 finished\n",
    );
    run_text::put_observations(out, lines, observations, r.size)
}

// All that is printed of a table, choices, a spread and offsets, at the front of out; answers how many bytes. Without a spread and without offsets
// it is what is printed of nodes that start together.
fn put_printed(
    table: &[u8],
    choices: &[u8],
    spread: u32,
    offsets: &[u32],
    observations: &mut [u8],
    out: &mut [u8],
) -> usize
    requires { (225700 ≤ length out.old) × (1024 * observation_width ≤ length observations.old) }
    ensures prefix_len { IsPrefixLen result out.new }
    ensures out_after { take result out.new ≡ run_text_at spread table.now offsets.now choices.now observations.old }
    ensures out_after_2 { spread ≡ 0 → offsets.now ≡ [] → take result out.new ≡ run_text table.now choices.now observations.old }
{
    let r = calls::apart::run_apart(table, choices, spread, offsets, observations);
    let v = r.verdict;
    match v {
        Verdict::Accepted => put_run(r, choices, offsets, nodes_of(table), observations, out),
        Verdict::Refused(number, component) => refusal_text::put_refusal_text(
            out, 0, number, component,
        ),
    }
}

// The same in arrays, whose lengths nobody has to prove.
fn put_in_arrays(
    table: &[u8],
    choices: &[u8],
    spread: u32,
    offsets: &[u32],
    observations: &mut [u8; OBSERVATIONS],
    out: &mut [u8; ROOM],
) -> usize
    ensures prefix_len { IsPrefixLen result out.new }
    ensures out_after { take result out.new ≡ run_text_at spread table.now offsets.now choices.now observations.old }
    ensures upper_bound { result ≤ 225700 }
{
    put_printed(table, choices, spread, offsets, observations, out)
}

// The same with room for all observations.
pub fn write(
    table: &[u8],
    choices: &[u8],
    spread: u32,
    offsets: &[u32],
    out: &mut [u8; ROOM],
) -> usize
    ensures prefix_len { IsPrefixLen result out.new }
    ensures out_after { take result out.new ≡ printed_run spread table.now offsets.now choices.now }
    ensures upper_bound { result ≤ 225700 }
{
    let mut observations = [0u8; OBSERVATIONS];
    put_in_arrays(table, choices, spread, offsets, &mut observations, out)
}
