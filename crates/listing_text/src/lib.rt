// A program's listing, written into a lent slice line by line (document 01, 'The program').
// A slice with a place beside it, and no string: there is no heap.
#![tactic(auto, using(text::proofs::Appended::next))]

mod lines;
mod statement;

pub use lines::{
    blocks_of, code_at, end_of, put_behind, put_block_head, put_node_head, put_place,
    put_program_head, start_of, statements_of,
};
pub use statement::put_statement;
