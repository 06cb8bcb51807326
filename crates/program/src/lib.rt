// Program bytes, whatever they hold: where the part of one node stands (document 01, 'The program').
#![tactic(auto)]

ghost use Rattle.std.specs.Prelude.{◌≡◌};
ghost use Rattle.model.specs.Program.{part_of, within};
ghost use Rattle.program.specs.Part.{Spans};

use model::layout;

// A range of bytes.
#[derive(Clone, Copy)]
pub struct Span {
    pub start: usize,
    pub long: usize,
}

// Where a node's part stands; 0 and 0 where it has none, as the C function `timed_network_part` answers.
pub fn span_of(program: &[u8], node: u8) -> Span
    ensures { Spans program.now result (part_of program.now node) }
{
    if program.len() < layout::PROGRAM_HEADER {
        return Span { start: 0, long: 0 };
    }
    if program[layout::PROGRAM_COMPONENTS] <= node {
        return Span { start: 0, long: 0 };
    }
    let mut at: usize = layout::PROGRAM_HEADER;
    let mut left = node;
    // A while: where the next part stands is read from the bytes.
    while at + 2 <= program.len() {
        let n = parts::word_at(program, at) as usize;
        if program.len() - at < n {
            return Span { start: 0, long: 0 };
        }
        if left == 0 {
            return Span { start: at, long: n };
        }
        at += n;
        left -= 1;
    }
    Span { start: 0, long: 0 }
}

// The part of the program bytes that belongs to one node, for any bytes.
pub fn part<'a>(program: &'a [u8], node: u8) -> &'a [u8]
    ensures { result.now ≡ within (part_of program.now node) program.now }
{
    let span = span_of(program, node);
    let start = span.start;
    let end = start + span.long;
    &program[start..end]
}
