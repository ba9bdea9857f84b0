// The tree as tokens: its flat preorder, in a slice of numbers. A leaf b is 16b; a node is 32m + 8 (P) or 32m + 24 (C), and the m tokens of
// its items follow. An item's state under a restriction, 0 to 4, is added to its token; so code too has a state as that number.
#![tactic(auto)]

ghost use Rattle.std.specs.Prelude.{◌≡◌, List, ℕ, ◌<◌, ◌≤◌, length};
ghost use Rattle.std.specs.Iterator.{at_most};
ghost use Rattle.std.proofs.Math.Option.{some};
ghost use Rattle.spec_orders.specs.Lists.{numbers_from};
ghost use Rattle.spec_orders.specs.Tree.{rev, items};
ghost use Rattle.spec_orders.specs.Form.{first};
ghost use Rattle.spec_orders.specs.Join.{fresh, leaf_items};
ghost use Rattle.tree_tokens.specs.Tokens.{number, Judged, tree, j_rev, encode, Tokens, Wrote, flat};
ghost use Rattle.tree_tokens.specs.Views.{shape_of, state_of, leaf_of, first_of, items_of, rest_of, TakesItem};

use std::marker::Model;

// What an item is.
#[derive(Clone, Copy, PartialEq, Eq)]
pub enum ItemShape {
    Leaf,
    PNode,
    CNode,
}

// The first item's shape.
pub fn shape(toks: &[u16]) -> ItemShape
    requires { (Tokens toks.now) × (0 < length toks.now) }
    ensures { (j : Judged) → toks.now ≡ encode j → some result ≡ shape_of j }
{
    let t = toks[0] / 8;
    if t % 2 == 0 {
        ItemShape::Leaf
    } else if t % 4 == 1 {
        ItemShape::PNode
    } else {
        ItemShape::CNode
    }
}

// The number of the first item's state.
pub fn state(toks: &[u16]) -> u16
    requires { (Tokens toks.now) × (0 < length toks.now) }
    ensures { (j : Judged) → toks.now ≡ encode j → result ≡ number (state_of j) }
{
    toks[0] % 8
}

// The first item's leaf.
pub fn leaf(toks: &[u16]) -> u16
    requires { (Tokens toks.now) × (0 < length toks.now) }
    ensures { (j : Judged) → toks.now ≡ encode j → shape_of j ≡ some ItemShape.Leaf → result ≡ leaf_of j }
{
    toks[0] / 16
}

// How many tokens the first item has.
pub fn size(toks: &[u16]) -> usize
    requires { (Tokens toks.now) × (0 < length toks.now) }
    ensures { (0 < result) × (result ≤ length toks.now)
        × ((j : Judged) → toks.now ≡ encode j → result ≡ length (encode (first_of j))) }
{
    let t = (toks[0] / 8) as usize;
    if t % 2 == 0 {
        return 1;
    }
    t / 4 + 1
}

// The first item alone.
pub fn first(toks: &[u16]) -> &[u16]
    requires { (Tokens toks.now) × (0 < length toks.now) }
    ensures { (length result.now ≤ length toks.now)
        × ((j : Judged) → toks.now ≡ encode j → result.now ≡ encode (first_of j)) }
{
    let m = size(toks);
    &toks[0..m]
}

// The first item's items.
pub fn items(toks: &[u16]) -> &[u16]
    requires { (Tokens toks.now) × (0 < length toks.now) }
    ensures { (length result.now < length toks.now)
        × ((j : Judged) → toks.now ≡ encode j → result.now ≡ encode (items_of j)) }
{
    let m = size(toks);
    &toks[1..m]
}

// The items after the first one.
pub fn rest(toks: &[u16]) -> &[u16]
    requires { (Tokens toks.now) × (0 < length toks.now) }
    ensures { (length result.now < length toks.now)
        × ((j : Judged) → toks.now ≡ encode j → result.now ≡ encode (rest_of j)) }
{
    let m = size(toks);
    &toks[m..]
}

// The items that tokens show, one after the other: each as its tokens.
#[derive(Drop)]
pub struct EachItem<'a> {
    toks: &'a [u16],
}

impl<'a> Model for EachItem<'a> {
    ghost Value = { List ℕ };

    ghost view = { λ s. s.toks.now };

    ghost invariant = { λ s. Tokens s.toks.now };
}

impl<'a> Iterator for EachItem<'a> {
    type Item = &'a [u16];

    ghost next_gives = { TakesItem };

    ghost remaining = { λ s. at_most (length s) };

    fn next(&mut self) -> Option<&'a [u16]> {
        let toks = self.toks;
        if toks.len() == 0 {
            return None;
        }
        let m = size(toks);
        self.toks = &toks[m..];
        Some(&toks[..m])
    }
}

// Goes over the items.
pub fn each(toks: &[u16]) -> EachItem<'_>
    requires { Tokens toks.now }
    ensures { result ≡ toks.now }
{
    EachItem { toks }
}

// The first leaf of the first item; 0 where there is no item, or none in it, as `first` of the specification says.
pub fn first_leaf(toks: &[u16]) -> u16
    requires { Tokens toks.now }
    ensures { (j : Judged) → toks.now ≡ encode j → result ≡ first (tree j) }
{
    for t in toks {
        if *t / 8 % 2 == 0 {
            return *t / 16;
        }
        if *t / 32 == 0 {
            return 0;
        }
    }
    0
}

// The first leaf of the last item; 0 where there is no item, or none in it. By index and not by `each`: a leaf that nobody judged is passed by one
// test.
pub fn last_leaf(toks: &[u16]) -> u16
    requires { Tokens toks.now }
    ensures { (j : Judged) → toks.now ≡ encode j → result ≡ first (rev (tree j)) }
{
    let mut last = 0;
    let mut i = 0;
    while i < toks.len() {
        let t = toks[i];
        if t % 16 == 0 {
            last = t / 16;
            i += 1;
            continue;
        }
        let y = &toks[i..];
        last = first_leaf(y);
        i += size(y);
    }
    last
}

// How many items.
pub fn item_count(toks: &[u16]) -> usize
    requires { Tokens toks.now }
    ensures { (result ≤ length toks.now)
        × ((j : Judged) → toks.now ≡ encode j → result ≡ length (items (tree j))) }
{
    let mut n = 0;
    for _item in each(toks) {
        n += 1;
    }
    n
}

// Copies src to the start of out, and says how many. By a loop: the library's method becomes a call of `memmove`, a name that an archive for C would
// need from outside.
pub fn copy(src: &[u16], out: &mut [u16]) -> usize
    requires { length src.now ≤ length out.old }
    ensures { Wrote src.now out.old out.new result }
{
    for (i, t) in src.iter().enumerate() {
        out[i] = *t;
    }
    src.len()
}

// Writes the tokens without their states.
pub fn strip(toks: &[u16], out: &mut [u16]) -> usize
    requires { (Tokens toks.now) × (length toks.now ≤ length out.old) }
    ensures { (result ≡ length toks.now)
        × ((j : Judged) → toks.now ≡ encode j → Wrote (flat (tree j)) out.old out.new result) }
{
    for (i, t) in toks.iter().enumerate() {
        out[i] = *t - *t % 8;
    }
    toks.len()
}

// Writes the items in the other direction, each as it was.
pub fn reverse(toks: &[u16], out: &mut [u16]) -> usize
    requires { (Tokens toks.now) × (length toks.now ≤ length out.old) }
    ensures { (result ≡ length toks.now)
        × ((j : Judged) → toks.now ≡ encode j → Wrote (encode (j_rev j)) out.old out.new result) }
{
    if toks.len() == 0 {
        return 0;
    }
    let k = reverse(rest(toks), out);
    k + copy(first(toks), &mut out[k..])
}

// Writes the leaves 2, 3, .. as items, k of them.
fn leaf_items(k: usize, out: &mut [u16]) -> usize
    requires { (k ≤ 4000) × (k ≤ length out.old) }
    ensures { Wrote (flat (leaf_items (numbers_from 2 k))) out.old out.new result }
{
    for i in 0..k {
        out[i] = (16 * (i + 2)) as u16;
    }
    k
}

// Writes the fresh tree of n leaves: one P-node with the leaves 2 to n; for n = 2 leaf 2 alone.
pub fn fresh(n: usize, out: &mut [u16]) -> usize
    requires { (n ≤ 256) × (n ≤ length out.old) }
    ensures { (result ≤ n) × Wrote (flat (fresh n)) out.old out.new result }
{
    if n == 0 {
        return 0;
    }
    let k = n - 1;
    if k < 2 {
        return leaf_items(k, out);
    }
    let r = leaf_items(k, &mut out[1..]);
    out[0] = (32 * k + 8) as u16;
    1 + r
}
