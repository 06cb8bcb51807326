// How many nodes a table has, for the programs that print a line or a number for each.
#![tactic(auto)]

ghost use Rattle.std.specs.Prelude.{◌≡◌};
ghost use Rattle.model.specs.Reader.{byte};

use model::layout;

// Of any bytes.
pub fn nodes_of(table: &[u8]) -> usize
    ensures { result ≡ byte table.now 3 }
{
    table
        .get(layout::TABLE_COMPONENTS)
        .map_or(0, |count| usize::from(*count))
}
