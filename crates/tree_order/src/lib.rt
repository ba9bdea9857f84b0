// The standard order of a ring: leaf 1, and then the leaves of the tree from left to right. That of a rack: the leaves of the tree, seen from its
// largest leaf, from left to right.
#![tactic(auto)]

ghost use Rattle.std.specs.Prelude.{◌≡◌, suc, ◌≤◌, length};
ghost use Rattle.spec_orders.specs.Tree.{Forest, frontier};
ghost use Rattle.spec_orders.specs.Form.{standard};
ghost use Rattle.spec_orders.specs.Layout.{leaf_count};
ghost use Rattle.spec_orders.specs.SeenFrom.{seen_from, standard_on};
ghost use Rattle.tree_tokens.specs.Tokens.{Judged, tree, encode, Wrote, flat, TreeTokens};
ghost use Rattle.tree_frontier.specs.Room.{Room};

use spec_orders::Layout;

// Writes leaf 1 and then the leaves of the tree, left to right, to the start of order, and says how many.
pub fn standard_order(toks: &[u16], order: &mut [u16]) -> usize
    requires { Room standard toks.now (length order.old) }
    ensures { (j : Judged) → toks.now ≡ encode j → Wrote (standard (tree j)) order.old order.new result }
{
    order[0] = 1;
    1 + tree_frontier::collect_p(toks, &mut order[1..])
}

// Writes the leaves of the tree, seen from its leaf n + 1 and left to right, to the start of order, and says how many.
pub fn straight_order(toks: &[u16], n: usize, order: &mut [u16]) -> usize
    requires { (TreeTokens (suc n) toks.now) × (1 ≤ n) × (n ≤ length order.old) }
    ensures { (t : Forest) → toks.now ≡ flat t
        → Wrote (frontier (seen_from 1 (suc n) t)) order.old order.new result }
{
    let mut tmp = [0u16; 512];
    let k = tree_seen::seen_from(toks, 1, (n + 1) as u16, &mut tmp);
    tree_frontier::collect_p(&tmp[0..k], order)
}

// Writes the standard order of a ring or rack of n bins to the start of order, and says how many.
pub fn order_on(layout: Layout, n: usize, toks: &[u16], order: &mut [u16]) -> usize
    requires { (TreeTokens (leaf_count layout n) toks.now) × (1 ≤ n) × (n ≤ length order.old) }
    ensures { (t : Forest) → toks.now ≡ flat t → Wrote (standard_on layout n t) order.old order.new result }
{
    match layout {
        Layout::Ring => standard_order(toks, order),
        Layout::Rack => straight_order(toks, n, order),
    }
}
