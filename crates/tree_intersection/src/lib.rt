// The intersection of two trees in tokens: the characteristic groups of the one join the other, in one walk over its tokens.
#![tactic(auto)]

ghost use Rattle.std.specs.Prelude.{◌≡◌, map, ◌<◌, ◌≤◌, length, take};
ghost use Rattle.spec_orders.specs.Lists.{elem};
ghost use Rattle.spec_orders.specs.Tree.{Forest, frontier};
ghost use Rattle.spec_orders.specs.Join.{join, joins};
ghost use Rattle.spec_intersection.specs.Intersection.{item_pairs, p_items, characteristic, intersection};
ghost use Rattle.mark_words.specs.Marks.{marked, words_of, either};
ghost use Rattle.tree_tokens.specs.Tokens.{Judged, tree, encode, Tokens, flat, TreeTokens};
ghost use Rattle.tree_update.specs.Update.{Answers};
ghost use Rattle.tree_intersection.specs.Intersect.{Growing, Grows, first_groups};

use tree_tokens::ItemShape;

// Marks the leaves of the items, and keeps the other marks.
fn mark_leaves(toks: &[u16], words: &mut [u64])
    requires { Tokens toks.now }
    ensures { (j : Judged) → toks.now ≡ encode j
        → words.new ≡ words_of (length words.old) (either (elem (frontier (tree j))) (marked words.old)) }
{
    for t in toks {
        if *t / 8 % 2 != 0 {
            continue;
        }
        mark_words::set(words, *t / 16);
    }
}

// Joins the leaves of these items, as one group, to the tree of `many` tokens at the start of `into`. Answers how many tokens the new tree there has;
// or that it is impossible. So do the four below.
fn join_leaves(toks: &[u16], n: usize, into: &mut [u16], many: usize) -> Option<usize>
    requires { (Tokens toks.now) × (Growing n into.old many) }
    ensures { (j : Judged) (t : Forest) → toks.now ≡ encode j → take many into.old ≡ flat t
        → Grows (join (elem (frontier (tree j))) t) into.new result }
{
    let mut words = [0u64; 4];
    mark_leaves(toks, &mut words);
    let mut next = [0u16; 512];
    let m = tree_update::join(&into[0..many], &words, n, &mut next)?;
    Some(tree_tokens::copy(&next[0..m], into))
}

// Joins the leaves of each two neighbouring items. By index: the two are one part of the tokens.
fn join_pairs(toks: &[u16], n: usize, into: &mut [u16], many: usize) -> Option<usize>
    requires { (Tokens toks.now) × (Growing n into.old many) }
    ensures { (j : Judged) (t : Forest) → toks.now ≡ encode j → take many into.old ≡ flat t
        → Grows (joins (map elem (item_pairs (tree j))) t) into.new result }
{
    let mut k = many;
    let mut i = 0;
    while i < toks.len() {
        let j = i + tree_tokens::size(&toks[i..]);
        if j == toks.len() {
            return Some(k);
        }
        let end = j + tree_tokens::size(&toks[j..]);
        k = join_leaves(&toks[i..end], n, into, k)?;
        i = j;
    }
    Some(k)
}

// Joins the leaves of each item that is a P-node.
fn join_p_items(toks: &[u16], n: usize, into: &mut [u16], many: usize) -> Option<usize>
    requires { (Tokens toks.now) × (Growing n into.old many) }
    ensures { (j : Judged) (t : Forest) → toks.now ≡ encode j → take many into.old ≡ flat t
        → Grows (joins (map elem (p_items (tree j))) t) into.new result }
{
    let mut k = many;
    for item in tree_tokens::each(toks) {
        let ItemShape::PNode = tree_tokens::shape(item) else {
            continue;
        };
        k = join_leaves(tree_tokens::items(item), n, into, k)?;
    }
    Some(k)
}

// Joins the groups of the first item, if it is a node.
fn join_node(toks: &[u16], n: usize, into: &mut [u16], many: usize) -> Option<usize>
    requires { (Tokens toks.now) × (0 < length toks.now) × (Growing n into.old many) }
    ensures { (j : Judged) (t : Forest) → toks.now ≡ encode j → take many into.old ≡ flat t
        → Grows (joins (map elem (first_groups (tree j))) t) into.new result }
{
    match tree_tokens::shape(toks) {
        ItemShape::Leaf => Some(many),
        ItemShape::PNode => join_p_items(tree_tokens::items(toks), n, into, many),
        ItemShape::CNode => join_pairs(tree_tokens::items(toks), n, into, many),
    }
}

// Joins the groups of every node.
fn join_groups(toks: &[u16], n: usize, into: &mut [u16], many: usize) -> Option<usize>
    requires { (Tokens toks.now) × (Growing n into.old many) }
    ensures { (j : Judged) (t : Forest) → toks.now ≡ encode j → take many into.old ≡ flat t
        → Grows (joins (map elem (characteristic (tree j))) t) into.new result }
{
    let mut k = many;
    for i in 0..toks.len() {
        k = join_node(&toks[i..], n, into, k)?;
    }
    Some(k)
}

// Writes the intersection of the two trees to the start of out. Answers how many tokens it has; or that they allow no order in common.
pub fn intersect(toks: &[u16], other: &[u16], n: usize, out: &mut [u16]) -> Option<usize>
    requires { (TreeTokens n toks.now) × (TreeTokens n other.now) × (512 ≤ length out.old) }
    ensures { (t u : Forest) → toks.now ≡ flat t → other.now ≡ flat u
        → Answers (intersection t u) out.old out.new result }
{
    let mut tree = [0u16; 512];
    let many = tree_tokens::copy(toks, &mut tree);
    let k = join_groups(other, n, &mut tree, many)?;
    Some(tree_tokens::copy(&tree[0..k], out))
}
