// What the programs of the outside vectors say of tables.
#![tactic(auto)]

use spec_calls::Refusal;
use spec_orders::Layout;

// Whether the table holds the tree of a ring or a rack of n bins whose text is this one.
pub fn is_text(layout: Layout, n: usize, nodes: &[u16], want: &[u8]) -> bool {
    let mut bytes = [0u8; 2048];
    let Ok(k) = call_text::write(layout, n, nodes, 256, &mut bytes) else {
        return false;
    };
    k <= 2048 && &bytes[..k] == want
}

// Whether every number is x.
pub fn all_are(table: &[u16], x: u16) -> bool {
    table.iter().all(|y| *y == x)
}
