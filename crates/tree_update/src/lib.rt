// The update of a tree in tokens by a restriction, and a group that joins. It writes the reduced form of the judged tree: one item whose full
// leaves are consecutive.
#![tactic(auto)]

ghost use Rattle.std.specs.Prelude.{◌≡◌, ℕ, ◌+◌, ◌<◌, ◌≤◌, length};
ghost use Rattle.std.proofs.Math.Option.{some};
ghost use Rattle.tree_tokens.specs.Tokens.{Judged, tree, encode, Tokens, Wrote, flat};
ghost use Rattle.tree_tokens.specs.Views.{first_of};
ghost use Rattle.tree_judge.specs.Judge.{judge};
ghost use Rattle.tree_judge.specs.Total.{first_reduced, c_node_of, middle_of, totals};
ghost use Rattle.tree_pieces.specs.Writers.{Fits, FitsBoth, gathered};
ghost use Rattle.tree_laid.specs.Lying.{Lies, Midway};
ghost use Rattle.spec_orders.specs.CircularOrder.{Restriction};
ghost use Rattle.spec_orders.specs.Tree.{Forest};
ghost use Rattle.spec_orders.specs.Form.{first};
ghost use Rattle.spec_orders.specs.Reduce.{reduce};
ghost use Rattle.spec_orders.specs.Join.{join};
ghost use Rattle.mark_words.specs.Marks.{marked};
ghost use Rattle.tree_update.specs.Update.{lone_of, NotLone, Forks, placed_again, TokensWithin, JudgedTree, Answers};

use tree_laid::{Laid, circle, seat};
use tree_linear::{line, lines};
use tree_pieces::{all_of_state, among, c_node, find_partial, pack_state};
use tree_tokens::ItemShape;

// Whether the first item is the last one that is not empty.
fn lone(x: &[u16]) -> bool
    requires { Tokens x.now }
    ensures { (j : Judged) → x.now ≡ encode j → result ≡ lone_of (totals j) }
{
    if x.len() == 0 {
        return false;
    }
    all_of_state(tree_tokens::rest(x), 0)
}

// Where the tokens x lie that were written from place 512 on.
fn begun(x: &[u16]) -> Laid
    requires { (Tokens x.now) × (length x.now ≤ 512) }
    ensures { (result.from ≡ 512) × (result.to ≡ 512 + length x.now) × ((j : Judged) → x.now ≡ encode j → result.first ≡ first (tree j)) }
{
    Laid {
        from: 512,
        to: 512 + x.len(),
        first: tree_tokens::first_leaf(x),
    }
}

// Lays the first item as it is.
fn stay(x: &[u16], buf: &mut [u16]) -> Laid
    requires { (Tokens x.now) × (0 < length x.now) × (length x.now ≤ 512) × (length buf.old ≡ 1024) }
    ensures { (Midway result) × ((j : Judged) → x.now ≡ encode j → Lies (tree (first_of j)) buf.new result) }
{
    let e = 512 + tree_tokens::strip(tree_tokens::first(x), &mut buf[512..]);
    begun(&buf[512..e])
}

// Writes a C-node's items with their full leaves consecutive, where not just one of them is not empty.
fn middle(x: &[u16], out: &mut [u16]) -> usize
    requires { (Fits middle_of x.now out.old) × (length x.now ≤ 512) × (length out.old ≤ 512) × (NotLone x.now) }
    ensures { (j : Judged) → x.now ≡ encode j
        → Wrote (flat (middle_of (totals j))) out.old out.new result }
{
    let i = tree_spans::span(x, 0);
    let k = tree_tokens::strip(&x[0..i], out);
    if i == x.len() {
        return k;
    }
    let y = &x[i..];
    let m = k + line(y, false, &mut out[k..]);
    m + lines(tree_tokens::rest(y), true, &mut out[m..])
}

// Lays the C-node with the items x reduced, where not just one of them is not empty. tmp is scratch.
fn base_c(x: &[u16], buf: &mut [u16], tmp: &mut [u16]) -> Laid
    requires { ((j : Judged) × (x.now ≡ encode j) × (length (flat (middle_of (totals j))) < 512)) × (length x.now ≤ 512) × (NotLone x.now)
        × (length buf.old ≡ 1024) × (length tmp.old ≡ 512) }
    ensures { (Midway result) × ((j : Judged) → x.now ≡ encode j → Lies (c_node_of (middle_of (totals j))) buf.new result) }
{
    let m = middle(x, tmp);
    let e = 512 + c_node(&tmp[0..m], &mut buf[512..]);
    begun(&buf[512..e])
}

// Writes a P-node's partial and full items as one item, where not just one of them is not empty. tmp is scratch.
fn gather(x: &[u16], out: &mut [u16], tmp: &mut [u16]) -> usize
    requires { (FitsBoth gathered x.now out.old tmp.old) × (length x.now ≤ 512) × (length out.old ≤ 512) × (length tmp.old ≤ 1024)
        × (NotLone x.now) }
    ensures { (j : Judged) → x.now ≡ encode j
        → Wrote (flat (gathered (totals j))) out.old out.new result }
{
    let y = find_partial(x);
    if y.len() == 0 {
        return pack_state(x, 1, out);
    }
    let z = find_partial(tree_tokens::rest(y));
    if z.len() > 0 {
        let i = line(y, false, tmp);
        let k = i + pack_state(x, 1, &mut tmp[i..]);
        let m = k + line(z, true, &mut tmp[k..]);
        return c_node(&tmp[0..m], out);
    }
    let i = pack_state(x, 1, tmp);
    let m = i + line(y, true, &mut tmp[i..]);
    c_node(&tmp[0..m], out)
}

// Lays the P-node with the items x reduced, where not just one of them is not empty. tmp is scratch.
fn base_p(x: &[u16], buf: &mut [u16], tmp: &mut [u16]) -> Laid
    requires { ((j : Judged) × (x.now ≡ encode j) × (length (flat (placed_again j)) ≤ 512)) × (0 < length x.now) × (length x.now ≤ 512)
        × (NotLone x.now) × (length buf.old ≡ 1024) × (length tmp.old ≡ 512) }
    ensures { (Midway result) × ((j : Judged) → x.now ≡ encode j → Lies (placed_again j) buf.new result) }
{
    let m = gather(x, tmp, buf);
    let e = 512 + among(x, &tmp[0..m], &mut buf[512..]);
    begun(&buf[512..e])
}

// Lays the first item reduced. tmp is scratch.
fn reduced(x: &[u16], buf: &mut [u16], tmp: &mut [u16]) -> Laid
    requires { ((j : Judged) × (x.now ≡ encode j) × (Forks j) × (length (flat (first_reduced (totals j))) < 512)) × (0 < length x.now)
        × (length x.now ≤ 512) × (length buf.old ≡ 1024) × (length tmp.old ≡ 512) }
    ensures { (Midway result) × ((j : Judged) → x.now ≡ encode j → Lies (first_reduced (totals j)) buf.new result) }
{
    let shape = tree_tokens::shape(x);
    if let ItemShape::Leaf = shape {
        return stay(x, buf);
    }
    if tree_tokens::state(x) < 2 {
        return stay(x, buf);
    }
    let w = tree_tokens::items(x);
    let i = tree_spans::span(w, 0);
    let y = &w[i..];
    if lone(y) {
        let t = reduced(y, buf, tmp);
        let after = tree_tokens::rest(y);
        return match shape {
            ItemShape::CNode => circle(&w[0..i], t, after, buf, tmp),
            _ => seat(&w[0..i], t, after, buf, tmp),
        };
    }
    match shape {
        ItemShape::CNode => base_c(w, buf, tmp),
        _ => base_p(w, buf, tmp),
    }
}

// Writes the tree with its full leaves consecutive to the start of out, and says how many tokens; `judged` are its tokens with their states.
pub fn rewrite(toks: &[u16], judged: &[u16], out: &mut [u16]) -> usize
    requires { ((n : ℕ) × (S : Restriction) × (t : Forest) × JudgedTree n S t toks.now judged.now) × (512 ≤ length out.old) }
    ensures { (S : Restriction) (t u : Forest) → toks.now ≡ flat t → judged.now ≡ encode (judge S t) → reduce S t ≡ some u
        → Wrote (flat u) out.old out.new result }
{
    if tree_stays::stays(judged) {
        return tree_tokens::copy(toks, out);
    }
    let mut buf = [0u16; 1024];
    let mut spare = [0u16; 512];
    let t = reduced(judged, &mut buf, &mut spare);
    let from = t.from;
    let to = t.to;
    tree_tokens::copy(&buf[from..to], out)
}

// Writes the tree with its marked leaves consecutive to the start of out, and says how many tokens it has; or that there is none.
fn update(toks: &[u16], marks: &[u64], out: &mut [u16]) -> Option<usize>
    requires { (n : ℕ) × (TokensWithin n toks.now) × (512 ≤ length out.old) }
    ensures { (t : Forest) → toks.now ≡ flat t
        → Answers (reduce (marked marks.now) t) out.old out.new result }
{
    let m = toks.len();
    if m == 0 {
        return Some(0);
    }
    let mut judged = [0u16; 512];
    tree_judge::judge(toks, marks, &mut judged);
    if tree_tokens::state(&judged[0..m]) == 4 {
        return None;
    }
    Some(rewrite(toks, &judged[0..m], out))
}

// A group joins: the same with the side of the group that leaf 1 is not in. group is four words.
pub fn join(toks: &[u16], group: &[u64], n: usize, out: &mut [u16]) -> Option<usize>
    requires { (TokensWithin n toks.now) × (length group.now ≡ 4) × (512 ≤ length out.old) }
    ensures { (t : Forest) → toks.now ≡ flat t
        → Answers (join (marked group.now) t) out.old out.new result }
{
    if mark_words::test(group, 1) {
        let mut side = [group[0], group[1], group[2], group[3]];
        mark_sets::complement(&mut side, n);
        return update(toks, &side, out);
    }
    update(toks, group, out)
}
