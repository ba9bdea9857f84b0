// The calls that write and read the tree text.
#![tactic(auto)]

ghost use Rattle.std.specs.Prelude.{◌≡◌, ℕ, ◌≤◌, ◌<◌, length};
ghost use Rattle.spec_orders.specs.Tree.{Forest};
ghost use Rattle.spec_orders.specs.TreeText.{text};
ghost use Rattle.spec_calls.specs.Tables.{lent_nodes, lent_book};
ghost use Rattle.spec_calls.specs.Refusals.{report};
ghost use Rattle.spec_calls.specs.Promises.{WritePromise, ReadPromise};
ghost use Rattle.tree_tokens.specs.Tokens.{flat, TreeTokens};
ghost use Rattle.call_text.specs.Fills.{Fills};

use spec_calls::Refusal;
use spec_orders::Layout;

// Writes the text of a tree in form and zeros up to 2,048 bytes; says how long the text is.
fn fill(toks: &[u16], bytes: &mut [u8]) -> usize
    requires { ((n : ℕ) × TreeTokens n toks.now) × (2048 ≤ length bytes.old) }
    ensures { (t : Forest) → toks.now ≡ flat t
        → Fills t bytes.old bytes.new result }
{
    let m = text_write::tree_text(toks, bytes);
    bytes[m..2048].fill(0);
    m
}

// Writes the tree text, of a rack that of its ring of n + 1 bins, and zeros up to 2,048 bytes. Answers the text's length; or refuses (1, 15, 2, 3), and
// leaves the bytes as they were.
pub fn write(
    layout: Layout,
    n: usize,
    nodes: &[u16],
    have: usize,
    bytes: &mut [u8],
) -> Result<usize, Refusal>
    ensures { WritePromise (lent_nodes layout n have nodes.now) bytes.old bytes.new (report result) }
{
    let mut toks = [0u16; 512];
    let k = call_checks::lent_tree(layout, n, nodes, have, bytes.len() < 2048, &mut toks)?;
    Ok(fill(&toks[0..k], bytes))
}

// Reads a tree text for n bins, of a rack that of its ring of n + 1 bins, lent exactly: the node table gets its tree, a P-node where the text has a
// C-node with two items, and the book is emptied. Answers the count of groups, 0; or refuses (1, 15, 2, 12), and leaves both tables as they were.
pub fn read(
    layout: Layout,
    n: usize,
    nodes: &mut [u16],
    have: usize,
    book: &mut [u64],
    text: &[u8],
) -> Result<usize, Refusal>
    ensures { ReadPromise (lent_nodes layout n have nodes.old) (lent_book book.old 0) text.now nodes.new (lent_book book.new 0) (report result) }
{
    call_checks::check_tables(layout, n, nodes, have, book.len() < 384)?;
    let mut toks = [0u16; 512];
    match text_read::read_text(text, layout.leaf_count(n), &mut toks) {
        Err(byte) => Err(Refusal::TreeText(byte)),
        Ok(k) => {
            table_store::store(&toks[0..k], nodes);
            table_book::clear(book);
            Ok(0)
        }
    }
}
