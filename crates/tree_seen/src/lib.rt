// A tree in tokens, seen from another leaf, in the published form. The path from the old root to the leaf is gone down once; what the nodes
// left behind have become lies in the middle of a buffer, and the other items of the next node are laid round it.
#![tactic(auto)]

ghost use Rattle.std.specs.Prelude.{◌≡◌, ◌==◌, position, ℕ, ◌+◌, ◌-◌, ◌<◌, ◌≤◌, length};
ghost use Rattle.spec_orders.specs.Tree.{Kind, Forest, Item, node_item};
ghost use Rattle.spec_orders.specs.Reduce.{one};
ghost use Rattle.spec_orders.specs.SeenFrom.{place, sees, seen_from};
ghost use Rattle.tree_tokens.specs.Tokens.{Wrote, flat};
ghost use Rattle.tree_laid.specs.Lying.{Lies, Midway};
ghost use Rattle.tree_seen.specs.Seen.{index_of, Held, NodeAt, ItemTokens, HasLeaf};

use tree_laid::Laid;
use tree_tokens::ItemShape;

// The index of a token, where it is one.
fn place_of(toks: &[u16], token: u16) -> Option<usize>
    ensures { result ≡ position (λ t. t == token) toks.now }
{
    toks.iter().position(|t| *t == token)
}

// The index of the leaf b; the length where it is none, as `index_of` of the specification says.
fn index_of(toks: &[u16], b: u16) -> usize
    requires { b ≤ 4095 }
    ensures { result ≡ index_of b toks.now }
{
    place_of(toks, 16 * b).unwrap_or(toks.len())
}

// How many tokens stand before the item that holds the token p: by index, which is the answer.
fn before(toks: &[u16], p: usize) -> usize
    requires { ((f : Forest) × (toks.now ≡ flat f)) × (p < length toks.now) }
    ensures { (result ≤ p) × ((f : Forest) → toks.now ≡ flat f → Held f p result) }
{
    let mut i = 0;
    let mut e = tree_tokens::size(toks);
    while e <= p {
        i = e;
        e += tree_tokens::size(&toks[e..]);
    }
    i
}

// Lays the node x as one of its items sees it: the other items round what lies at t, which is what x sees. The item starts at e among the tokens of
// the items. Says where the node lies. tmp is scratch.
fn turn(x: &[u16], e: usize, t: Laid, buf: &mut [u16], tmp: &mut [u16]) -> Laid
    requires { ((k : Kind) × (f : Forest) × (y : Item) × (g : Forest) × NodeAt x.now e k f y g) × ((v : Item) × Lies (one v) buf.old t)
        × (Midway t) × (length x.now + (t.to - t.from) ≤ 512) × (length buf.old ≡ 1024) × (length tmp.old ≡ 512) }
    ensures { (Midway result) × ((k : Kind) (f : Forest) (y : Item) (g : Forest) (v : Item) → NodeAt x.now e k f y g
        → Lies (one v) buf.old t → Lies (one (node_item k (place k v f g))) buf.new result) }
{
    let w = tree_tokens::items(x);
    let b = tree_tokens::rest(&w[e..]);
    match tree_tokens::shape(x) {
        ItemShape::CNode => tree_laid::circle(b, t, &w[0..e], buf, tmp),
        _ => tree_laid::seat(&w[0..e], t, b, buf, tmp),
    }
}

// Lays what the leaf with the token p of the item x sees, where what lies at t is what x sees. Says where it lies. tmp is scratch.
fn walk(x: &[u16], p: usize, t: Laid, buf: &mut [u16], tmp: &mut [u16]) -> Laid
    requires { ((y : Item) × ItemTokens x.now y) × (p < length x.now) × ((v : Item) × Lies (one v) buf.old t)
        × (Midway t) × (length x.now + (t.to - t.from) ≤ 512) × (length buf.old ≡ 1024) × (length tmp.old ≡ 512) }
    ensures { (Midway result) × ((y : Item) (b : ℕ) (v : Item) → ItemTokens x.now y → p ≡ index_of b x.now
        → Lies (one v) buf.old t → Lies (one (sees b v y)) buf.new result) }
{
    if p == 0 {
        return t;
    }
    let w = tree_tokens::items(x);
    let e = before(w, p - 1);
    let u = turn(x, e, t, buf, tmp);
    walk(tree_tokens::first(&w[e..]), p - 1 - e, u, buf, tmp)
}

// Writes the tree, seen from the leaf s, as it is seen from its leaf b, to the start of out, and says how many tokens.
pub fn seen_from(toks: &[u16], s: u16, b: u16, out: &mut [u16]) -> usize
    requires { (HasLeaf b toks.now) × (length toks.now ≤ 511) × (length toks.now ≤ length out.old) × (s ≤ 4095) × (b ≤ 4095) }
    ensures { (result ≡ length toks.now)
        × ((t : Forest) → toks.now ≡ flat t → Wrote (flat (seen_from s b t)) out.old out.new result) }
{
    let p = index_of(toks, b);
    let mut buf = [0u16; 1024];
    let mut tmp = [0u16; 512];
    buf[512] = 16 * s;
    let t = Laid {
        from: 512,
        to: 513,
        first: s,
    };
    let u = walk(toks, p, t, &mut buf, &mut tmp);
    let from = u.from;
    let to = u.to;
    tree_tokens::copy(&buf[from..to], out)
}
