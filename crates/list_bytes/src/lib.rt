// Bytes appended to a lent slice: each function writes from a place on and returns the place after what it wrote.
#![tactic(auto)]

ghost use Rattle.std.specs.Prelude.{◌≡◌, ◌+◌, ◌≤◌, length};
ghost use Rattle.spec_orders.specs.TreeText.{digits, tree_text};
ghost use Rattle.tree_tokens.specs.Tokens.{Judged, tree, encode, Wrote};
ghost use Rattle.list_bytes.specs.Appends.{Appends};
ghost use Rattle.list_bytes.specs.Rooms.{TextFits};

// Appends the bytes.
pub fn put(src: &[u8], out: &mut [u8], at: usize) -> usize
    requires { at + length src.now ≤ length out.old }
    ensures { Appends src.now at out.old out.new result }
{
    let end = at + src.len();
    out[at..end].copy_from_slice(src);
    end
}

// Appends the decimal digits of v, at most 20.
pub fn put_number(v: usize, out: &mut [u8], at: usize) -> usize
    requires { at + 20 ≤ length out.old }
    ensures { (result ≤ at + 20) × (Appends (digits v) at out.old out.new result) }
{
    at + byte_write::write_number(v, &mut out[at..])
}

// Appends the tree text of a tree in tokens.
pub fn put_tree(toks: &[u16], out: &mut [u8], at: usize) -> usize
    requires { TextFits toks.now at (length out.old) }
    ensures { (j : Judged) → toks.now ≡ encode j → Appends (tree_text (tree j)) at out.old out.new result }
{
    at + text_write::tree_text(toks, &mut out[at..])
}
