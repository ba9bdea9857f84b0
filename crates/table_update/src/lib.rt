// A node table that was swept, updated: what the sweep keeps has the state of every node, so the tree's tokens are labelled without judging it again.
#![tactic(auto)]

ghost use Rattle.std.specs.Prelude.{◌≡◌, ◌≤◌, length};
ghost use Rattle.spec_orders.specs.CircularOrder.{Restriction};
ghost use Rattle.spec_orders.specs.Tree.{Forest};
ghost use Rattle.spec_orders.specs.Form.{nodes};
ghost use Rattle.spec_calls.specs.Tables.{over};
ghost use Rattle.spec_calls.specs.NodeTable.{table_of};
ghost use Rattle.tree_tokens.specs.Tokens.{Judged, tree, encode, Wrote};
ghost use Rattle.table_update.specs.States.{state_beside, labelled_from, Updates};

// The number of the state of a token's item, where r nodes stand before it; work is what the sweep keeps.
fn state_beside(work: &[u64], r: usize, t: u16) -> u16
    requires { (r ≤ 256) × (length work.now ≡ 265) }
    ensures { (result ≤ 4) × (result ≡ state_beside work.now r t) }
{
    if t / 8 % 2 != 0 {
        return (work[8 + r] / 262144 % 5) as u16;
    }
    u16::from(mark_words::test(&work[0..4], t / 16))
}

// Writes the tokens to the start of out, each with the state of its item.
fn label(toks: &[u16], work: &[u64], out: &mut [u16])
    requires { ((j : Judged) × (toks.now ≡ encode j) × (nodes (tree j) ≤ 256)) × (length work.now ≡ 265) × (length toks.now ≤ length out.old) }
    ensures { Wrote (labelled_from work.now 0 toks.now) out.old out.new (length toks.now) }
{
    let mut r = 0;
    for (i, &t) in toks.iter().enumerate() {
        out[i] = t - t % 8 + state_beside(work, r, t);
        r += (t / 8 % 2) as usize;
    }
}

// Puts the tree reduced by a restriction in the place of the one that the table holds; work is what the sweep with this restriction keeps.
pub fn update(n: usize, table: &mut [u16], work: &[u64])
    requires { (S : Restriction) × (t : Forest) × (u : Forest) × Updates n S t u table.old work.now }
    ensures { (S : Restriction) (t u : Forest) → Updates n S t u table.old work.now
        → table.new ≡ over (table_of u) table.old }
{
    if n <= 2 {
        return;
    }
    let mut toks = [0u16; 512];
    let k = table_walk::walk(table, n, &mut toks);
    let mut judged = [0u16; 512];
    label(&toks[0..k], work, &mut judged);
    let mut out = [0u16; 512];
    let m = tree_update::rewrite(&toks[0..k], &judged[0..k], &mut out);
    table_store::replace(&toks[0..k], &out[0..m], table);
}
