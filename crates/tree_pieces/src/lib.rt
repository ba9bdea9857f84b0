// Parts of a judged sequence: items by state, and the small trees that are made of them.
#![tactic(auto)]

ghost use Rattle.std.specs.Prelude.{◌≡◌, ◌+◌, ◌<◌, ◌≤◌, leb, length};
ghost use Rattle.spec_orders.specs.Tree.{Forest};
ghost use Rattle.spec_orders.specs.Form.{first};
ghost use Rattle.spec_orders.specs.Reduce.{pack, put_sorted};
ghost use Rattle.tree_tokens.specs.Tokens.{Judged, tree, encode, Tokens, Wrote, flat};
ghost use Rattle.tree_tokens.specs.Views.{first_of};
ghost use Rattle.tree_judge.specs.Judge.{rises};
ghost use Rattle.tree_judge.specs.Total.{states_of, whole_of, c_node_of, totals};
ghost use Rattle.tree_pieces.specs.Writers.{Fits, with_state, all_with_state, from_partial};

use tree_tokens::ItemShape;

// How many items have the state s.
fn count(x: &[u16], s: u16) -> usize
    requires { Tokens x.now }
    ensures { (result ≤ length x.now)
        × ((j : Judged) → x.now ≡ encode j → result ≡ length (with_state s (totals j))) }
{
    let mut n = 0;
    for item in tree_tokens::each(x) {
        if tree_tokens::state(item) == s {
            n += 1;
        }
    }
    n
}

// Whether two items or more have the state s.
fn several(x: &[u16], s: u16) -> bool
    requires { (Tokens x.now) × (s ≤ 4) }
    ensures { (j : Judged) → x.now ≡ encode j → result ≡ leb 2 (length (with_state s (totals j))) }
{
    let i = tree_spans::until(x, s);
    if i == x.len() {
        return false;
    }
    let y = tree_tokens::rest(&x[i..]);
    tree_spans::until(y, s) < y.len()
}

// Writes the first item without its states.
fn put_first(x: &[u16], out: &mut [u16]) -> usize
    requires { (j : Judged) × (x.now ≡ encode j) × (0 < length x.now) × (length (encode (first_of j)) ≤ length out.old) }
    ensures { (j : Judged) → x.now ≡ encode j
        → Wrote (flat (tree (first_of j))) out.old out.new result }
{
    if let ItemShape::Leaf = tree_tokens::shape(x) {
        let t = x[0];
        out[0] = t - t % 8;
        return 1;
    }
    tree_tokens::strip(tree_tokens::first(x), out)
}

// Writes the items of state s, in their order. By index: from one run of such items to the next.
fn only(x: &[u16], s: u16, out: &mut [u16]) -> usize
    requires { (Fits (λ ts. whole_of (with_state s ts)) x.now out.old) × (s ≤ 4) }
    ensures { (j : Judged) → x.now ≡ encode j
        → Wrote (flat (whole_of (with_state s (totals j)))) out.old out.new result }
{
    let mut k = 0;
    let mut i = 0;
    while i < x.len() {
        let a = i + tree_spans::until(&x[i..], s);
        let e = a + tree_spans::span(&x[a..], s);
        k += tree_tokens::strip(&x[a..e], &mut out[k..]);
        i = e;
    }
    k
}

// The same as at most one item: as one P-node where they are two or more.
pub fn pack_state(x: &[u16], s: u16, out: &mut [u16]) -> usize
    requires { (Fits (λ ts. pack (whole_of (with_state s ts))) x.now out.old) × (length x.now ≤ 512) × (s ≤ 4) }
    ensures { (j : Judged) → x.now ≡ encode j
        → Wrote (flat (pack (whole_of (with_state s (totals j))))) out.old out.new result }
{
    if !several(x, s) {
        return only(x, s, out);
    }
    let k = only(x, s, &mut out[1..]);
    out[0] = (32 * k + 8) as u16;
    1 + k
}

// The items from the first partial one on. By index: a leaf is passed by one test, without its size.
pub fn find_partial(x: &[u16]) -> &[u16]
    requires { Tokens x.now }
    ensures { (length result.now ≤ length x.now)
        × ((j : Judged) → x.now ≡ encode j → result.now ≡ encode (from_partial j)) }
{
    let mut i = 0;
    while i < x.len() {
        if x[i] % 16 < 2 {
            i += 1;
            continue;
        }
        let y = &x[i..];
        if tree_tokens::state(y) >= 2 {
            return y;
        }
        i += tree_tokens::size(y);
    }
    &x[i..]
}

// Whether all items have the state s.
pub fn all_of_state(x: &[u16], s: u16) -> bool
    requires { (Tokens x.now) × (s ≤ 4) }
    ensures { (j : Judged) → x.now ≡ encode j → result ≡ all_with_state s (totals j) }
{
    tree_spans::span(x, s) == x.len()
}

// Whether a C-node's items read: empty ones, at most one partial one that has a line, full ones.
pub fn rises(x: &[u16]) -> bool
    requires { Tokens x.now }
    ensures { (j : Judged) → x.now ≡ encode j → result ≡ rises (states_of (totals j)) }
{
    let i = tree_spans::span(x, 0);
    if i == x.len() {
        return true;
    }
    let y = &x[i..];
    if tree_tokens::state(y) >= 3 {
        return false;
    }
    all_of_state(tree_tokens::rest(y), 1)
}

// Writes a C-node with the items x, in the direction of the published form.
pub fn c_node(x: &[u16], out: &mut [u16]) -> usize
    requires { (f : Forest) × (x.now ≡ flat f) × (length x.now < length out.old) × (length x.now ≤ 1024) }
    ensures { (f : Forest) → x.now ≡ flat f
        → Wrote (flat (c_node_of f)) out.old out.new result }
{
    if tree_tokens::last_leaf(x) < tree_tokens::first_leaf(x) {
        let k = tree_tokens::reverse(x, &mut out[1..]);
        out[0] = (32 * k + 24) as u16;
        return 1 + k;
    }
    let m = tree_tokens::copy(x, &mut out[1..]);
    out[0] = (32 * m + 24) as u16;
    1 + m
}

// Writes the empty items of x, and t, whose first leaf is b, before the first of them with a larger first leaf. By index: the items from there on
// are written in one run.
fn insert(x: &[u16], b: u16, t: &[u16], out: &mut [u16]) -> usize
    requires { (j : Judged) × (g : Forest) × (x.now ≡ encode j) × (t.now ≡ flat g) × (b ≡ first g)
        × (length (flat (put_sorted g (whole_of (with_state 0 (totals j))))) ≤ length out.old) }
    ensures { (j : Judged) (g : Forest) → x.now ≡ encode j → t.now ≡ flat g
        → Wrote (flat (put_sorted g (whole_of (with_state 0 (totals j))))) out.old out.new result }
{
    let mut k = 0;
    let mut i = 0;
    while i < x.len() {
        let y = &x[i..];
        let m = tree_tokens::size(y);
        if tree_tokens::state(y) != 0 {
            i += m;
            continue;
        }
        if b < tree_tokens::first_leaf(y) {
            let e = k + tree_tokens::copy(t, &mut out[k..]);
            return e + only(y, 0, &mut out[e..]);
        }
        k += put_first(y, &mut out[k..]);
        i += m;
    }
    k + tree_tokens::copy(t, &mut out[k..])
}

// Writes t among the empty items of x, as at most one item.
pub fn among(x: &[u16], t: &[u16], out: &mut [u16]) -> usize
    requires { (j : Judged) × (g : Forest) × (x.now ≡ encode j) × (t.now ≡ flat g) × (length x.now + length t.now ≤ 1024)
        × (length (flat (pack (put_sorted g (whole_of (with_state 0 (totals j)))))) ≤ length out.old) }
    ensures { (j : Judged) (g : Forest) → x.now ≡ encode j → t.now ≡ flat g
        → Wrote (flat (pack (put_sorted g (whole_of (with_state 0 (totals j)))))) out.old out.new result }
{
    let b = tree_tokens::first_leaf(t);
    if count(x, 0) + tree_tokens::item_count(t) < 2 {
        return insert(x, b, t, out);
    }
    let m = insert(x, b, t, &mut out[1..]);
    out[0] = (32 * m + 8) as u16;
    1 + m
}
