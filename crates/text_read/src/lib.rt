// The tree text, read: the tokens of the tree that is found in it, or the byte at which it is refused.
#![tactic(auto)]

ghost use Rattle.std.specs.Prelude.{◌≡◌, ◌<◌, ◌≤◌, length, get_or};
ghost use Rattle.spec_orders.specs.Tree.{Forest};
ghost use Rattle.spec_orders.specs.ThreeNeighbours.{relabel};
ghost use Rattle.tree_tokens.specs.Tokens.{Tokens, Wrote, flat};
ghost use Rattle.text_read.specs.ReadText.{ReadText};

use tree_tokens::ItemShape;

// The first token; of a P-node, which is 16 less, where it is of a C-node with two items.
fn relabelled(toks: &[u16]) -> u16
    requires { (Tokens toks.now) × (0 < length toks.now) }
    ensures { (t : Forest) → toks.now ≡ flat t → result ≡ get_or (flat (relabel t)) 0 0 }
{
    let t = toks[0];
    let ItemShape::CNode = tree_tokens::shape(toks) else {
        return t;
    };
    if tree_tokens::item_count(tree_tokens::items(toks)) != 2 {
        return t;
    }
    t - 16
}

// Writes the tree with a P-node for each C-node of two items, and says how many tokens it has.
fn relabel(toks: &[u16], out: &mut [u16]) -> usize
    requires { (Tokens toks.now) × (length toks.now ≤ length out.old) }
    ensures { (t : Forest) → toks.now ≡ flat t → Wrote (flat (relabel t)) out.old out.new result }
{
    for i in 0..toks.len() {
        out[i] = relabelled(&toks[i..]);
    }
    toks.len()
}

// Reads the text for one or two leaves.
fn short(text: &[u8], n: usize, out: &mut [u16]) -> Result<usize, usize>
    requires { (1 ≤ n) × (n ≤ 2) × (512 ≤ length out.old) }
    ensures { ReadText n text.now out.old out.new result }
{
    let word = b"1 2";
    text_shape::word_read(text, &word[..2 * n - 1])?;
    Ok(tree_tokens::fresh(n, out))
}

// Writes the tokens of the tree that is found in the text for n leaves, with a P-node for each C-node of two items, to the start of out. Answers how
// many; or the byte at which the text is refused.
pub fn read_text(text: &[u8], n: usize, out: &mut [u16]) -> Result<usize, usize>
    requires { (1 ≤ n) × (n ≤ 256) × (512 ≤ length out.old) }
    ensures { ReadText n text.now out.old out.new result }
{
    if n <= 2 {
        return short(text, n, out);
    }
    let mut spelled = [0u16; 512];
    let k = text_shape::shape(text, n, &mut spelled)?;
    if let Some(byte) = text_rules::broken(&spelled[..k]) {
        return Err(byte);
    }
    Ok(relabel(&spelled[..k], out))
}
