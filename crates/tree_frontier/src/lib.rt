// The leaves of a tree in tokens, from left to right: the P-node walk and the C-node walk. A P-node's items may be C-nodes and a C-node's items
// P-nodes, so each walk calls the other. Both go by index: a leaf is passed by one test, without its size.
#![tactic(auto)]

ghost use Rattle.std.specs.Prelude.{◌≡◌, length};
ghost use Rattle.spec_orders.specs.Tree.{frontier};
ghost use Rattle.tree_tokens.specs.Tokens.{Judged, tree, encode, Wrote};
ghost use Rattle.tree_frontier.specs.Room.{Room};

// Writes the leaves of a P-node's items, left to right, to the start of order, and says how many.
#[cycle(collect_c_collect_p)]
pub fn collect_p(toks: &[u16], order: &mut [u16]) -> usize
    requires { Room frontier toks.now (length order.old) }
    ensures { (j : Judged) → toks.now ≡ encode j → Wrote (frontier (tree j)) order.old order.new result }
{
    let mut k = 0;
    let mut i = 0;
    while i < toks.len() {
        let t = toks[i];
        if t / 8 % 2 == 0 {
            order[k] = t / 16;
            k += 1;
            i += 1;
            continue;
        }
        let inner = tree_tokens::items(&toks[i..]);
        i += tree_tokens::size(&toks[i..]);
        if t / 8 % 4 == 3 {
            k += collect_c(inner, &mut order[k..]);
            continue;
        }
        k += collect_p(inner, &mut order[k..]);
    }
    k
}

// Writes the leaves of a C-node's items, left to right, to the start of order, and says how many.
#[cycle(collect_c_collect_p)]
fn collect_c(toks: &[u16], order: &mut [u16]) -> usize
    requires { Room frontier toks.now (length order.old) }
    ensures { (j : Judged) → toks.now ≡ encode j → Wrote (frontier (tree j)) order.old order.new result }
{
    let mut k = 0;
    let mut i = 0;
    while i < toks.len() {
        let t = toks[i];
        if t / 8 % 2 == 0 {
            order[k] = t / 16;
            k += 1;
            i += 1;
            continue;
        }
        let inner = tree_tokens::items(&toks[i..]);
        i += tree_tokens::size(&toks[i..]);
        if t / 8 % 4 == 1 {
            k += collect_p(inner, &mut order[k..]);
            continue;
        }
        k += collect_c(inner, &mut order[k..]);
    }
    k
}
