// The calls that write and read the tree text, on a node table of records. Written by tools/outer.py.
#![tactic(auto)]

ghost use Rattle.spec_calls.specs.Tables.{lent_book};
ghost use Rattle.spec_calls.specs.Refusals.{report};
ghost use Rattle.spec_calls.specs.Promises.{WritePromise, ReadPromise};
ghost use Rattle.record_copy.specs.Rows.{node_rows};
ghost use Rattle.record_left.specs.Records.{lent_records, Left};

use record_copy::Node;
use spec_calls::Refusal;
use spec_orders::Layout;

// Writes the tree text, of a rack that of its ring of n + 1 bins, then zeros, to the first 2,048 bytes. Answers the length of the text; or refuses
// (1, 15, 2, 3), and leaves every table as it was.
pub fn write(layout: Layout, n: usize, nodes: &[Node], bytes: &mut [u8]) -> Result<usize, Refusal>
    ensures { WritePromise (lent_records layout n nodes.now) bytes.old bytes.new (report result) }
{
    let mut flat = [0u16; 65792];
    let have = record_copy::load(nodes, &mut flat);
    call_text::write(layout, n, &flat, have, bytes)
}

// Reads a tree text for n bins, of a rack for its ring of n + 1, lent without zeros after it: the node table gets its tree, a P-node where the text
// has a C-node with two items, and the book is emptied. Answers the count of groups, 0; or refuses (1, 15, 2, 12), and leaves every table as it was.
pub fn read(
    layout: Layout,
    n: usize,
    nodes: &mut [Node],
    book: &mut [u64],
    text: &[u8],
) -> Result<usize, Refusal>
    ensures { ReadPromise (lent_records layout n nodes.old) (lent_book book.old 0) text.now (node_rows nodes.new) (lent_book book.new 0) (report result) × Left nodes.old nodes.new (report result) }
{
    let mut flat = [0u16; 65792];
    let have = record_copy::load(nodes, &mut flat);
    let r = call_text::read(layout, n, &mut flat, have, book, text);
    record_copy::store(&flat, nodes);
    r
}
