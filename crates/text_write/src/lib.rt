// The tree text, written from tokens: the P-node walk and the C-node walk.
#![tactic(auto)]

ghost use Rattle.std.specs.Prelude.{◌≡◌, ◌≤◌, ◌<◌, length};
ghost use Rattle.spec_orders.specs.TreeText.{text, tree_text};
ghost use Rattle.tree_tokens.specs.Tokens.{Judged, tree, encode, Wrote};
ghost use Rattle.tree_frontier.specs.Room.{Room};
ghost use Rattle.text_write.specs.Around.{opening, gap, closing};

pub use byte_write::write_number;
use tree_tokens::ItemShape;

// Writes what stands before the first item's items: a leaf's digits, or a node's letter and bracket. Says how many bytes.
fn write_opening(toks: &[u16], out: &mut [u8]) -> usize
    requires { (Room opening toks.now (length out.old)) × (0 < length toks.now) }
    ensures { (j : Judged) → toks.now ≡ encode j → Wrote (opening (tree j)) out.old out.new result }
{
    match tree_tokens::shape(toks) {
        ItemShape::Leaf => write_number(tree_tokens::leaf(toks) as usize, out),
        ItemShape::PNode => {
            out[0] = b'P';
            out[1] = b'(';
            2
        }
        ItemShape::CNode => {
            out[0] = b'C';
            out[1] = b'(';
            2
        }
    }
}

// Writes the space before an item, if there is one. Says how many bytes.
fn write_gap(toks: &[u16], out: &mut [u8]) -> usize
    requires { Room gap toks.now (length out.old) }
    ensures { (j : Judged) → toks.now ≡ encode j → Wrote (gap (tree j)) out.old out.new result }
{
    if toks.is_empty() {
        return 0;
    }
    out[0] = b' ';
    1
}

// Writes what stands after the first item's items: a node's bracket, and the space before the next item. Says how many bytes.
fn write_closing(toks: &[u16], out: &mut [u8]) -> usize
    requires { (Room closing toks.now (length out.old)) × (0 < length toks.now) }
    ensures { (j : Judged) → toks.now ≡ encode j → Wrote (closing (tree j)) out.old out.new result }
{
    if let ItemShape::Leaf = tree_tokens::shape(toks) {
        return write_gap(tree_tokens::rest(toks), out);
    }
    out[0] = b')';
    1 + write_gap(tree_tokens::rest(toks), &mut out[1..])
}

// Writes the text of a P-node's items, and says how many bytes. By index, as the other walk: an item's gap looks at the tokens behind it.
#[cycle(write_c_write_p)]
fn write_p(toks: &[u16], out: &mut [u8]) -> usize
    requires { Room text toks.now (length out.old) }
    ensures { (j : Judged) → toks.now ≡ encode j → Wrote (text (tree j)) out.old out.new result }
{
    let mut k = 0;
    let mut i = 0;
    while i < toks.len() {
        let next = &toks[i..];
        k += write_opening(next, &mut out[k..]);
        match tree_tokens::shape(next) {
            ItemShape::Leaf => {}
            ItemShape::PNode => k += write_p(tree_tokens::items(next), &mut out[k..]),
            ItemShape::CNode => k += write_c(tree_tokens::items(next), &mut out[k..]),
        }
        k += write_closing(next, &mut out[k..]);
        i += tree_tokens::size(next);
    }
    k
}

// Writes the text of a C-node's items, and says how many bytes.
#[cycle(write_c_write_p)]
fn write_c(toks: &[u16], out: &mut [u8]) -> usize
    requires { Room text toks.now (length out.old) }
    ensures { (j : Judged) → toks.now ≡ encode j → Wrote (text (tree j)) out.old out.new result }
{
    let mut k = 0;
    let mut i = 0;
    while i < toks.len() {
        let next = &toks[i..];
        k += write_opening(next, &mut out[k..]);
        match tree_tokens::shape(next) {
            ItemShape::Leaf => {}
            ItemShape::PNode => k += write_p(tree_tokens::items(next), &mut out[k..]),
            ItemShape::CNode => k += write_c(tree_tokens::items(next), &mut out[k..]),
        }
        k += write_closing(next, &mut out[k..]);
        i += tree_tokens::size(next);
    }
    k
}

// Writes the tree text of a tree in tokens, and says how many bytes.
pub fn tree_text(toks: &[u16], out: &mut [u8]) -> usize
    requires { Room tree_text toks.now (length out.old) }
    ensures { (j : Judged) → toks.now ≡ encode j → Wrote (tree_text (tree j)) out.old out.new result }
{
    out[0] = b'1';
    let k = 1 + write_gap(toks, &mut out[1..]);
    k + write_p(toks, &mut out[k..])
}
