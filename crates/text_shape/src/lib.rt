// The shape of a tree text: the tokens of the tree that it spells, or the byte at which no text of the shape goes on.
#![tactic(auto)]

ghost use Rattle.std.specs.Prelude.{◌≤◌, length};
ghost use Rattle.text_scanner.specs.Unused.{unused};
ghost use Rattle.text_leaf.specs.Passages.{Marks};
ghost use Rattle.text_shape.specs.Texts.{WordRead, Opening, WholeRead, ShapeRead};

use text_leaf::NodeKind;

// Whether the text is the word; or the byte at which it is refused.
#[tactic(auto, using(crate::proofs::Wholes::words))]
pub fn word_read(text: &[u8], word: &[u8]) -> Result<(), usize>
    ensures { WordRead text.now word.now result }
{
    for (i, &b) in word.iter().enumerate() {
        if i >= text.len() || text[i] != b {
            return Err(i);
        }
    }
    if word.len() < text.len() {
        return Err(word.len());
    }
    Ok(())
}

// The kind whose letter follows `1` and a space at the start of the text; or the byte at which it is refused.
#[tactic(auto, using(crate::proofs::Wholes::openings))]
fn opening(text: &[u8]) -> Result<NodeKind, usize>
    ensures { Opening text.now result }
{
    match text {
        [b'1', b' ', b, ..] => text_leaf::node_kind(*b).ok_or(2),
        [b'1', b' '] => Err(2),
        [b'1', ..] => Err(1),
        _ => Err(0),
    }
}

// Reads the whole text, from three leaves on, and writes its tokens. Answers how many; or the byte of the refusal.
fn whole(text: &[u8], many: usize, used: &mut [u8], out: &mut [u16]) -> Result<usize, usize>
    requires { (Marks many used.old) × (2 ≤ many) × (many ≤ 255) × (512 ≤ length out.old) }
    ensures { WholeRead text.now (unused 0 used.old) out.old out.new result }
{
    let kind = opening(text)?;
    let root = text_node::opened(text, 3, 0, many, used, &mut out[1..])?;
    if root.left != 0 {
        return Err(root.at);
    }
    let end = root.at + 1;
    if end < text.len() {
        return Err(end);
    }
    out[0] = text_leaf::header(kind, root.count);
    Ok(1 + root.count)
}

// Reads the shape of the text, from three leaves on, and writes its tokens. Answers how many; or the byte of the refusal.
pub fn shape(text: &[u8], n: usize, out: &mut [u16]) -> Result<usize, usize>
    requires { (3 ≤ n) × (n ≤ 256) × (512 ≤ length out.old) }
    ensures { ShapeRead n text.now out.old out.new result }
{
    let mut used = [0u8; 257];
    used[0] = 1;
    used[1] = 1;
    whole(text, n - 1, &mut used[..n + 1], out)
}
