// The node table as it is lent, a slice of records, and its copies to and from rows of 257 numbers.
#![tactic(auto)]

ghost use Rattle.std.specs.Prelude.{◌≡◌, ◌++◌, ◌⊎◌, ◌+◌, ◌*◌, ◌<◌, ◌≤◌, length, get_or, set, take, drop};
ghost use Rattle.record_copy.specs.Rows.{zero_node, row_of, rows_of, put_row, node_at, with_rows, Sound};

// A record of the node table (docs/NODE-TABLE.md).
#[repr(C)]
#[derive(Clone, Copy)]
pub struct Node {
    pub kind: u8,
    pub count: u16,
    pub items: [u16; 255],
}

// Writes a record to row `at`, number by number: a record's kind is a byte, a row's a number.
fn put_row(node: &Node, flat: &mut [u16], at: usize)
    requires { at * 257 + 257 ≤ length flat.old }
    ensures row { flat.new ≡ put_row flat.old at (row_of node.now) }
    ensures whole { (node.now.kind < 256) × (length node.now.items ≡ 255) }
{
    let base = at * 257;
    flat[base] = u16::from(node.kind);
    flat[base + 1] = node.count;
    flat[base + 2..base + 257].copy_from_slice(&node.items);
}

// The record in row `at`.
fn row_at(flat: &[u16], at: usize) -> Node
    requires { at * 257 + 257 ≤ length flat.now }
    ensures { result ≡ node_at flat.now at }
{
    let base = at * 257;
    let mut items = [0u16; 255];
    items.copy_from_slice(&flat[base + 2..base + 257]);
    Node {
        kind: (flat[base] % 256) as u8,
        count: flat[base + 1],
        items,
    }
}

// How many records of n are copied: at most 256.
pub fn cap(n: usize) -> usize
    ensures { (result ≤ 256) × ((result ≤ n) × ((result ≡ n) ⊎ (result ≡ 256))) }
{
    n.min(256)
}

// Writes the first 256 records to their rows. Returns how many records there are.
pub fn load(nodes: &[Node], flat: &mut [u16]) -> usize
    requires { length flat.old ≡ 65792 }
    ensures { (result ≡ length nodes.now)
        × ((flat.new ≡ rows_of (take 256 nodes.now) ++ drop (length (take 256 nodes.now) * 257) flat.old)
        × Sound (take 256 nodes.now)) }
{
    for i in 0..cap(nodes.len()) {
        put_row(&nodes[i], flat, i);
    }
    nodes.len()
}

// Puts the records of the rows in the first 256 places.
pub fn store(flat: &[u16], nodes: &mut [Node])
    requires { length flat.now ≡ 65792 }
    ensures { nodes.new ≡ with_rows flat.now nodes.old }
{
    for i in 0..cap(nodes.len()) {
        nodes[i] = row_at(flat, i);
    }
}
