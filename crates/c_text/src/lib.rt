// The calls that write and read the tree text, for C and Rust, on a node table of rows of 257 numbers, one row a record. Each returns 0, or the
// number of its refusal, and writes one number through `value`: its own answer; or the place or byte of the refusal, 0 where the table names none.
// Written by tools/outer.py.
#![tactic(auto)]

ghost use Rattle.spec_orders.specs.Layout.{layout_numbered};
ghost use Rattle.spec_calls.specs.Tables.{lent_rows, lent_book};
ghost use Rattle.spec_calls.specs.Refusals.{reply};
ghost use Rattle.spec_calls.specs.Promises.{WritePromise, ReadPromise};

use spec_orders::Layout;

// Writes the tree text, of a rack that of its ring of n + 1 bins, then zeros, to the first 2,048 bytes. The value is the length of the text.
#[unsafe(no_mangle)]
pub extern "C" fn tokuwhape_write(
    layout: u8,
    n: usize,
    nodes: &[u16],
    bytes: &mut [u8],
    value: &mut usize,
) -> u8
    ensures { WritePromise (lent_rows (layout_numbered layout) n nodes.now) bytes.old bytes.new (reply result value.new) }
{
    let layout = Layout::from(layout);
    let have = c_rows::records(nodes);
    let answer = call_text::write(layout, n, nodes, have, bytes);
    spec_calls::code(answer, value)
}

// Reads a tree text for n bins, of a rack for its ring of n + 1, lent without zeros after it: the node table gets its tree, a P-node where the text
// has a C-node with two items, and the book is emptied. The value is the count of groups, 0.
#[unsafe(no_mangle)]
pub extern "C" fn tokuwhape_read(
    layout: u8,
    n: usize,
    nodes: &mut [u16],
    book: &mut [u64],
    text: &[u8],
    value: &mut usize,
) -> u8
    ensures { ReadPromise (lent_rows (layout_numbered layout) n nodes.old) (lent_book book.old 0) text.now nodes.new (lent_book book.new 0) (reply result value.new) }
{
    let layout = Layout::from(layout);
    let have = c_rows::records(nodes);
    let answer = call_text::read(layout, n, nodes, have, book, text);
    spec_calls::code(answer, value)
}
