// The calls that open a ring or a rack, join a group and try one, on a node table of records, but for `trial`, which stands in record_trial. Written
// by tools/outer.py.
#![tactic(auto)]

ghost use Rattle.spec_calls.specs.Tables.{lent_book};
ghost use Rattle.spec_calls.specs.Refusals.{report};
ghost use Rattle.spec_calls.specs.Promises.{OpenPromise, JoinPromise};
ghost use Rattle.record_copy.specs.Rows.{node_rows};
ghost use Rattle.record_left.specs.Records.{lent_records, Left};

use record_copy::Node;
use spec_calls::Refusal;
use spec_orders::Layout;

// Opens a ring or a rack of n bins: its node table gets the fresh tree, and its book is emptied. Answers the count of groups, 0; or refuses (1, 15,
// 2), and leaves every table as it was.
pub fn open(
    layout: Layout,
    n: usize,
    nodes: &mut [Node],
    book: &mut [u64],
) -> Result<usize, Refusal>
    ensures { OpenPromise (lent_records layout n nodes.old) (lent_book book.old 0) (node_rows nodes.new) (lent_book book.new 0) (report result) × Left nodes.old nodes.new (report result) }
{
    let mut flat = [0u16; 65792];
    let have = record_copy::load(nodes, &mut flat);
    let r = call_update::open(layout, n, &mut flat, have, book);
    record_copy::store(&flat, nodes);
    r
}

// Joins the list's group, which may be empty: the node table gets the new tree, and the group takes the book's next place. Answers the new count of
// groups; or refuses (1, 15, 2, 3, 5 to 8), and leaves every table as it was.
pub fn join(
    layout: Layout,
    n: usize,
    nodes: &mut [Node],
    book: &mut [u64],
    count: usize,
    list: &[u16],
) -> Result<usize, Refusal>
    ensures { JoinPromise (lent_records layout n nodes.old) (lent_book book.old count) list.now (node_rows nodes.new) (lent_book book.new count) (report result) × Left nodes.old nodes.new (report result) }
{
    let mut flat = [0u16; 65792];
    let have = record_copy::load(nodes, &mut flat);
    let r = call_update::join(layout, n, &mut flat, have, book, count, list);
    record_copy::store(&flat, nodes);
    r
}
