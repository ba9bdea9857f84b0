// A node table of rows of 257 numbers, one row a record.
#![tactic(auto)]

ghost use Rattle.std.specs.Prelude.{◌≡◌, ◌/◌, length};

// How many whole records the rows are.
pub fn records(nodes: &[u16]) -> usize
    ensures { result ≡ length nodes.now / 257 }
{
    nodes.len() / 257
}
