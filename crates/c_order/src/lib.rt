// The calls that write the standard order and find the aim of a group, for C and Rust, on a node table of rows of 257 numbers, one row a record. Each
// returns 0, or the number of its refusal, and writes one number through `value`: its own answer; or the place or byte of the refusal, 0 where the
// table names none. Written by tools/outer.py.
#![tactic(auto)]

ghost use Rattle.spec_orders.specs.Layout.{layout_numbered};
ghost use Rattle.spec_calls.specs.Tables.{lent_rows, lent_book};
ghost use Rattle.spec_calls.specs.Refusals.{reply};
ghost use Rattle.spec_calls.specs.Promises.{OrderPromise, AimPromise};

use spec_orders::Layout;

// Writes the standard order, of a ring from leaf 1, of a rack the first allowed list, to the first n places of order. The value is n.
#[unsafe(no_mangle)]
pub extern "C" fn tokuwhape_order(
    layout: u8,
    n: usize,
    nodes: &[u16],
    order: &mut [u16],
    value: &mut usize,
) -> u8
    ensures { OrderPromise (lent_rows (layout_numbered layout) n nodes.now) order.old order.new (reply result value.new) }
{
    let layout = Layout::from(layout);
    let have = c_rows::records(nodes);
    let answer = call_order::order(layout, n, nodes, have, order);
    spec_calls::code(answer, value)
}

// Finds the aim of the book's group with this number from 1, the middle of its run in the standard order: of two middle places, counted from 0, the
// even one; on a ring, of the last place and place 0, place 0. An empty group has none. The value is the leaf.
#[unsafe(no_mangle)]
pub extern "C" fn tokuwhape_aim(
    layout: u8,
    n: usize,
    nodes: &[u16],
    book: &[u64],
    count: usize,
    group: usize,
    value: &mut usize,
) -> u8
    ensures { AimPromise (lent_rows (layout_numbered layout) n nodes.now) (lent_book book.now count) group (reply result value.new) }
{
    let layout = Layout::from(layout);
    let have = c_rows::records(nodes);
    let answer = call_order::aim(layout, n, nodes, have, book, count, group);
    spec_calls::code(answer, value)
}
