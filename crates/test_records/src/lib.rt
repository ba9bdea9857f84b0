// The calls of crate `record_calls` on node records, for tests from C and Rust. Each returns 0, or the number of its refusal, and writes one number
// through `value`: its own answer; or the place or byte of the refusal, 0 where the table names none. Written by tools/outer.py.
#![tactic(auto)]

ghost use Rattle.spec_orders.specs.Layout.{layout_numbered};
ghost use Rattle.spec_calls.specs.Tables.{lent_book};
ghost use Rattle.spec_calls.specs.Refusals.{reply};
ghost use Rattle.spec_calls.specs.Promises.{OpenPromise, JoinPromise, TrialPromise, OrderPromise, AimPromise, WritePromise, ReadPromise, IntersectPromise};
ghost use Rattle.record_copy.specs.Rows.{node_rows};
ghost use Rattle.record_left.specs.Records.{lent_records, Left};

use record_copy::Node;
use spec_orders::Layout;

// Opens a ring or a rack of n bins: its node table gets the fresh tree, and its book is emptied. The value is the count of groups, 0.
#[unsafe(no_mangle)]
pub extern "C" fn ring_open(
    layout: u8,
    n: usize,
    nodes: &mut [Node],
    book: &mut [u64],
    value: &mut usize,
) -> u8
    ensures { OpenPromise (lent_records (layout_numbered layout) n nodes.old) (lent_book book.old 0) (node_rows nodes.new) (lent_book book.new 0) (reply result value.new) × Left nodes.old nodes.new (reply result value.new) }
{
    let layout = Layout::from(layout);
    let answer = record_calls::open(layout, n, nodes, book);
    spec_calls::code(answer, value)
}

// Joins the list's group, which may be empty: the node table gets the new tree, and the group takes the book's next place. The value is the new count
// of groups.
#[unsafe(no_mangle)]
pub extern "C" fn ring_join(
    layout: u8,
    n: usize,
    nodes: &mut [Node],
    book: &mut [u64],
    count: usize,
    list: &[u16],
    value: &mut usize,
) -> u8
    ensures { JoinPromise (lent_records (layout_numbered layout) n nodes.old) (lent_book book.old count) list.now (node_rows nodes.new) (lent_book book.new count) (reply result value.new) × Left nodes.old nodes.new (reply result value.new) }
{
    let layout = Layout::from(layout);
    let answer = record_calls::join(layout, n, nodes, book, count, list);
    spec_calls::code(answer, value)
}

// Answers as joining the list's group would, and changes nothing.
#[unsafe(no_mangle)]
pub extern "C" fn ring_trial(
    layout: u8,
    n: usize,
    nodes: &[Node],
    book: &[u64],
    count: usize,
    list: &[u16],
    value: &mut usize,
) -> u8
    ensures { TrialPromise (lent_records (layout_numbered layout) n nodes.now) (lent_book book.now count) list.now (reply result value.new) }
{
    let layout = Layout::from(layout);
    let answer = record_calls::trial(layout, n, nodes, book, count, list);
    spec_calls::code(answer, value)
}

// Writes the standard order, of a ring from leaf 1, of a rack the first allowed list, to the first n places of order. The value is n.
#[unsafe(no_mangle)]
pub extern "C" fn ring_order(
    layout: u8,
    n: usize,
    nodes: &[Node],
    order: &mut [u16],
    value: &mut usize,
) -> u8
    ensures { OrderPromise (lent_records (layout_numbered layout) n nodes.now) order.old order.new (reply result value.new) }
{
    let layout = Layout::from(layout);
    let answer = record_calls::order(layout, n, nodes, order);
    spec_calls::code(answer, value)
}

// Finds the aim of the book's group with this number from 1, the middle of its run in the standard order: of two middle places, counted from 0, the
// even one; on a ring, of the last place and place 0, place 0. An empty group has none. The value is the leaf.
#[unsafe(no_mangle)]
pub extern "C" fn ring_aim(
    layout: u8,
    n: usize,
    nodes: &[Node],
    book: &[u64],
    count: usize,
    group: usize,
    value: &mut usize,
) -> u8
    ensures { AimPromise (lent_records (layout_numbered layout) n nodes.now) (lent_book book.now count) group (reply result value.new) }
{
    let layout = Layout::from(layout);
    let answer = record_calls::aim(layout, n, nodes, book, count, group);
    spec_calls::code(answer, value)
}

// Writes the tree text, of a rack that of its ring of n + 1 bins, then zeros, to the first 2,048 bytes. The value is the length of the text.
#[unsafe(no_mangle)]
pub extern "C" fn ring_write(
    layout: u8,
    n: usize,
    nodes: &[Node],
    bytes: &mut [u8],
    value: &mut usize,
) -> u8
    ensures { WritePromise (lent_records (layout_numbered layout) n nodes.now) bytes.old bytes.new (reply result value.new) }
{
    let layout = Layout::from(layout);
    let answer = record_calls::write(layout, n, nodes, bytes);
    spec_calls::code(answer, value)
}

// Reads a tree text for n bins, of a rack for its ring of n + 1, lent without zeros after it: the node table gets its tree, a P-node where the text
// has a C-node with two items, and the book is emptied. The value is the count of groups, 0.
#[unsafe(no_mangle)]
pub extern "C" fn ring_read(
    layout: u8,
    n: usize,
    nodes: &mut [Node],
    book: &mut [u64],
    text: &[u8],
    value: &mut usize,
) -> u8
    ensures { ReadPromise (lent_records (layout_numbered layout) n nodes.old) (lent_book book.old 0) text.now (node_rows nodes.new) (lent_book book.new 0) (reply result value.new) × Left nodes.old nodes.new (reply result value.new) }
{
    let layout = Layout::from(layout);
    let answer = record_calls::read(layout, n, nodes, book, text);
    spec_calls::code(answer, value)
}

// Writes the tree that allows exactly the orders allowed by the tree of n bins and by that of m to the third node table; a rack is taken as its ring
// of n + 1 bins. The value is 0.
#[unsafe(no_mangle)]
pub extern "C" fn ring_intersect(
    layout: u8,
    n: usize,
    nodes: &[Node],
    layout2: u8,
    m: usize,
    other: &[Node],
    third: &mut [Node],
    value: &mut usize,
) -> u8
    ensures { IntersectPromise (lent_records (layout_numbered layout) n nodes.now) (lent_records (layout_numbered layout2) m other.now) (lent_records (layout_numbered layout) n third.old) (node_rows third.new) (reply result value.new) × Left third.old third.new (reply result value.new) }
{
    let layout = Layout::from(layout);
    let layout2 = Layout::from(layout2);
    let answer = record_calls::intersect(layout, n, nodes, layout2, m, other, third);
    spec_calls::code(answer, value)
}
