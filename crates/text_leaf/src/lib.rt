// A leaf of a tree text, read into its token; the letter and the token of a node.
#![tactic(auto)]

ghost use Rattle.std.specs.Prelude.{◌≡◌, false, ℕ, ◌+◌, ◌-◌, ◌*◌, ◌≤◌, ◌<◌, length, get_or, MatchOption};
ghost use Rattle.spec_orders.specs.TreeText.{letter};
ghost use Rattle.tree_tokens.specs.Tokens.{E, node_token};
ghost use Rattle.text_scanner.specs.Scan.{letter?};
ghost use Rattle.text_leaf.specs.Passages.{Marks, ItemRead, tree_kind};

// How far the text was read: up to the byte `at`, with `left` leaves unused and `count` tokens written.
#[derive(Clone, Copy)]
pub struct Reached {
    pub at: usize,
    pub left: usize,
    pub count: usize,
}

// The kind of a node, as its letter tells it. The sweep of a node table has one for numbers: neither crate knows the other.
#[derive(Clone, Copy)]
pub enum NodeKind {
    P,
    C,
}

// The kind that the byte is the letter of, if it is one.
pub fn node_kind(b: u8) -> Option<NodeKind>
    ensures { MatchOption result (letter? b ≡ false) (λ k. b ≡ letter (tree_kind k)) }
{
    match b {
        b'P' => Some(NodeKind::P),
        b'C' => Some(NodeKind::C),
        _ => None,
    }
}

// Reads the leaf at byte `at`, marks it as used and writes its token; or answers the byte of the refusal.
#[tactic(auto, using(crate::proofs::Leaves::no_leaf))]
pub fn leaf(
    text: &[u8],
    at: usize,
    many: usize,
    used: &mut [u8],
    out: &mut [u16],
) -> Result<Reached, usize>
    requires { (at < length text.now) × (letter? (get_or text.now at 0) ≡ false) × (Marks many used.old) × (1 ≤ many)
        × (1 ≤ length out.old) }
    ensures { (c : ℕ) (want : ℕ) → c - 1 + want < many
        → ItemRead text.now at c want many used.old used.new out.old out.new result }
{
    let digit @ b'1'..=b'9' = text[at] else {
        return Err(at);
    };
    let v = (digit - b'0') as usize;
    if !text_number::any_start(used, v) {
        return Err(at);
    }
    let number = text_number::number(text, at + 1, v, used)?;
    used[number.leaf] = 1;
    out[0] = (16 * number.leaf) as u16;
    Ok(Reached {
        at: number.at,
        left: many - 1,
        count: 1,
    })
}

// The token of a node whose items have m tokens.
#[tactic(auto, unfolding(tree_tokens::specs::Tokens::node_token))]
pub fn header(kind: NodeKind, m: usize) -> u16
    requires { m ≤ 512 }
    ensures { result ≡ node_token E (tree_kind kind) m }
{
    let bits = match kind {
        NodeKind::P => 8,
        NodeKind::C => 24,
    };
    (32 * m + bits) as u16
}
