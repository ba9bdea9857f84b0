// The calls that write the standard order and find the aim of a group, on a node table of records. Written by tools/outer.py.
#![tactic(auto)]

ghost use Rattle.spec_calls.specs.Tables.{lent_book};
ghost use Rattle.spec_calls.specs.Refusals.{report};
ghost use Rattle.spec_calls.specs.Promises.{OrderPromise, AimPromise};
ghost use Rattle.record_left.specs.Records.{lent_records};

use record_copy::Node;
use spec_calls::Refusal;
use spec_orders::Layout;

// Writes the standard order, of a ring from leaf 1, of a rack the first allowed list, to the first n places of order. Answers n; or refuses (1, 15,
// 2, 3), and leaves every table as it was.
pub fn order(layout: Layout, n: usize, nodes: &[Node], order: &mut [u16]) -> Result<usize, Refusal>
    ensures { OrderPromise (lent_records layout n nodes.now) order.old order.new (report result) }
{
    let mut flat = [0u16; 65792];
    let have = record_copy::load(nodes, &mut flat);
    call_order::order(layout, n, &flat, have, order)
}

// Finds the aim of the book's group with this number from 1, the middle of its run in the standard order: of two middle places, counted from 0, the
// even one; on a ring, of the last place and place 0, place 0. An empty group has none. Answers the leaf; or refuses (1, 15, 2, 3, 9, 14, 10).
pub fn aim(
    layout: Layout,
    n: usize,
    nodes: &[Node],
    book: &[u64],
    count: usize,
    group: usize,
) -> Result<usize, Refusal>
    ensures { AimPromise (lent_records layout n nodes.now) (lent_book book.now count) group (report result) }
{
    let mut flat = [0u16; 65792];
    let have = record_copy::load(nodes, &mut flat);
    call_order::aim(layout, n, &flat, have, book, count, group)
}
