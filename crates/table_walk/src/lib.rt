// The tree that a node table holds, loaded into tokens: the sweep says whether there is one, and a walk from the first record on writes its tokens.
#![tactic(auto)]

ghost use Rattle.std.specs.Prelude.{◌≡◌, ◌≤◌, length};
ghost use Rattle.std.proofs.Math.Option.{some};
ghost use Rattle.spec_orders.specs.Tree.{Forest};
ghost use Rattle.spec_calls.specs.NodeTable.{kind_of, tree_in};
ghost use Rattle.tree_tokens.specs.Tokens.{E, node_token, Wrote, flat};
ghost use Rattle.table_walk.specs.Walks.{NodeThere, ItemsThere, NodeWritten, ItemsWritten, Loads};

// The token of a node whose items have m tokens; `kind` is the number of its kind in a table that holds a tree: 2 for a C-node, else 1.
fn header(kind: u16, m: usize) -> u16
    requires { m ≤ 512 }
    ensures { result ≡ node_token E (kind_of kind) m }
{
    if kind == 2 {
        return (32 * m + 24) as u16;
    }
    (32 * m + 8) as u16
}

// Writes the tokens of the node in record r to the start of out, and says how many.
#[cycle(walk_items_walk_node)]
fn walk_node(table: &[u16], r: usize, out: &mut [u16]) -> usize
    requires { NodeThere table.now r (length out.old) }
    ensures { NodeWritten table.now r out.old out.new result }
{
    let at = 257 * r;
    let count = table[at + 1] as usize;
    let m = walk_items(table, &table[at + 2..at + 2 + count], &mut out[1..]);
    out[0] = header(table[at], m);
    1 + m
}

// Writes the tokens of the items in these places to the start of out, and says how many.
#[cycle(walk_items_walk_node)]
fn walk_items(table: &[u16], places: &[u16], out: &mut [u16]) -> usize
    requires { ItemsThere table.now places.now (length out.old) }
    ensures { ItemsWritten table.now places.now out.old out.new result }
{
    let mut k = 0;
    for &v in places {
        if v > 256 {
            k += walk_node(table, (v - 256) as usize, &mut out[k..]);
            continue;
        }
        out[k] = 16 * v;
        k += 1;
    }
    k
}

// Writes the tokens of the tree of n leaves that the table is known to hold to the start of out, and says how many.
pub fn walk(table: &[u16], n: usize, out: &mut [u16]) -> usize
    requires { (1 ≤ n) × (n ≤ 256) × (512 ≤ length out.old) × ((t : Forest) × (tree_in n table.now ≡ some t)) }
    ensures { (t : Forest) → tree_in n table.now ≡ some t → Wrote (flat t) out.old out.new result }
{
    if n <= 2 {
        return tree_tokens::fresh(n, out);
    }
    walk_node(table, 0, out)
}

// Writes the tokens of the tree of n leaves that the table holds to the start of out, and says how many; None where it holds no tree.
pub fn load(table: &[u16], n: usize, out: &mut [u16]) -> Option<usize>
    requires { (1 ≤ n) × (n ≤ 256) × (65792 ≤ length table.now) × (512 ≤ length out.old) }
    ensures { Loads n table.now out.old out.new result }
{
    if !table_sweep::holds(table, n) {
        return None;
    }
    Some(walk(table, n, out))
}
