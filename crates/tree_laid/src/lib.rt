// A tree that lies in the middle of a buffer, and items that are laid round it: what lies there stays where it is.
#![tactic(auto)]

ghost use Rattle.std.specs.Prelude.{◌≡◌, List, ◌∷◌, ◌++◌, ℕ, ◌+◌, ◌-◌, ◌*◌, ◌<◌, ◌≤◌, length};
ghost use Rattle.spec_orders.specs.Tree.{Forest, append, rev};
ghost use Rattle.spec_orders.specs.Form.{first};
ghost use Rattle.spec_orders.specs.Reduce.{pack, put_sorted};
ghost use Rattle.tree_tokens.specs.Tokens.{Judged, tree, encode, Tokens, flat};
ghost use Rattle.tree_judge.specs.Total.{c_node_of};
ghost use Rattle.tree_laid.specs.Lying.{Lies, Midway, StandsIn, lower};

// Where a tree lies in a buffer, from..to, and its first leaf.
#[derive(Drop)]
pub struct Laid {
    pub from: usize,
    pub to: usize,
    pub first: u16,
}

// The first leaf of x, or b where x has no item. A function that took the reader of the leaf, for this and the next, would be no plainer: the two
// promise different ends.
fn first_or(x: &[u16], b: u16) -> u16
    requires { Tokens x.now }
    ensures { (j : Judged) (g : Forest) → x.now ≡ encode j → b ≡ first g → result ≡ first (append (tree j) g) }
{
    if x.len() == 0 {
        return b;
    }
    tree_tokens::first_leaf(x)
}

// The first leaf of the last item of x, or b where x has no item.
fn last_or(x: &[u16], b: u16) -> u16
    requires { Tokens x.now }
    ensures { (j : Judged) (g : Forest) → x.now ≡ encode j → b ≡ first (rev g) → result ≡ first (rev (append g (tree j))) }
{
    if x.len() == 0 {
        return b;
    }
    tree_tokens::last_leaf(x)
}

// How many tokens stand before the first item with a first leaf above b: by index, which is the answer.
fn rank(x: &[u16], b: u16) -> usize
    requires { Tokens x.now }
    ensures { (result ≤ length x.now)
        × ((j : Judged) → x.now ≡ encode j → result ≡ length (flat (lower b (tree j)))) }
{
    let mut i = 0;
    while i < x.len() {
        let y = &x[i..];
        if b < tree_tokens::first_leaf(y) {
            return i;
        }
        i += tree_tokens::size(y);
    }
    i
}

// Lays the items l before and the items r behind what lies at t, as one node whose token is kind and 32 for each of their tokens.
fn wrap(l: &[u16], t: Laid, r: &[u16], kind: u16, first: u16, buf: &mut [u16]) -> Laid
    requires { (Tokens l.now) × (Tokens r.now) × (Midway t) × (length l.now + length r.now + (t.to - t.from) < 512)
        × (kind ≤ 24) × (length buf.old ≡ 1024) }
    ensures { (Midway result) × (result.first ≡ first) × ((p q : Judged) (xs : List ℕ) → l.now ≡ encode p → r.now ≡ encode q
        → StandsIn xs buf.old t.from t.to
        → StandsIn ((32 * length (flat (tree p) ++ (xs ++ flat (tree q))) + kind) ∷ (flat (tree p) ++ (xs ++ flat (tree q)))) buf.new result.from result.to) }
{
    let a = t.from;
    let e = t.to;
    let from = a - l.len();
    tree_tokens::strip(l, &mut buf[from..a]);
    let to = e + tree_tokens::strip(r, &mut buf[e..]);
    let at = from - 1;
    buf[at] = (32 * (to - from)) as u16 + kind;
    Laid {
        from: at,
        to: to,
        first: first,
    }
}

// Lays the items a before and b behind what lies at t, as one C-node in the direction of the published form. Says where it lies. tmp is scratch.
pub fn circle(a: &[u16], t: Laid, b: &[u16], buf: &mut [u16], tmp: &mut [u16]) -> Laid
    requires { (Tokens a.now) × (Tokens b.now) × ((g : Forest) × Lies g buf.old t) × (Midway t)
        × (length a.now + length b.now + (t.to - t.from) < 512) × (length buf.old ≡ 1024) × (length tmp.old ≡ 512) }
    ensures { (Midway result) × ((p q : Judged) (g : Forest) → a.now ≡ encode p → b.now ≡ encode q
        → Lies g buf.old t → Lies (c_node_of (append (tree p) (append g (tree q)))) buf.new result) }
{
    let first = first_or(a, t.first);
    let last = last_or(b, t.first);
    if last < first {
        let k = tree_tokens::reverse(b, tmp);
        let m = k + tree_tokens::reverse(a, &mut tmp[k..]);
        return wrap(&tmp[0..k], t, &tmp[k..m], 24, last, buf);
    }
    wrap(a, t, b, 24, first, buf)
}

// Lays the items a and b, in this sequence, round what lies at t, which goes before the first of them with a larger first leaf, as one item: a P-node
// where there are any. Says where it lies. tmp is scratch.
pub fn seat(a: &[u16], t: Laid, b: &[u16], buf: &mut [u16], tmp: &mut [u16]) -> Laid
    requires { (Tokens a.now) × (Tokens b.now) × ((g : Forest) × Lies g buf.old t) × (Midway t)
        × (length a.now + length b.now + (t.to - t.from) < 512) × (length buf.old ≡ 1024) × (length tmp.old ≡ 512) }
    ensures { (Midway result) × ((p q : Judged) (g : Forest) → a.now ≡ encode p → b.now ≡ encode q
        → Lies g buf.old t → Lies (pack (put_sorted g (append (tree p) (tree q)))) buf.new result) }
{
    let i = tree_tokens::strip(a, tmp);
    let m = i + tree_tokens::strip(b, &mut tmp[i..]);
    if m == 0 {
        return t;
    }
    let k = rank(&tmp[0..m], t.first);
    let first = first_or(&tmp[0..k], t.first);
    wrap(&tmp[0..k], t, &tmp[k..m], 8, first, buf)
}
