// The call that intersects two trees, on node tables of records. Written by tools/outer.py.
#![tactic(auto)]

ghost use Rattle.spec_calls.specs.Tables.{lent_nodes};
ghost use Rattle.spec_calls.specs.Refusals.{report};
ghost use Rattle.spec_calls.specs.Promises.{IntersectPromise};
ghost use Rattle.record_copy.specs.Rows.{node_rows};
ghost use Rattle.record_left.specs.Records.{lent_records, Left};

use record_copy::Node;
use spec_calls::Refusal;
use spec_orders::Layout;

// Writes the tree that allows exactly the orders allowed by the tree of n bins and by that of m to the third node table; a rack is taken as its ring
// of n + 1 bins. Answers 0; or refuses (1, 15, 2, 13, 3, 8), and leaves every table as it was.
pub fn intersect(
    layout: Layout,
    n: usize,
    nodes: &[Node],
    layout2: Layout,
    m: usize,
    other: &[Node],
    third: &mut [Node],
) -> Result<usize, Refusal>
    ensures { IntersectPromise (lent_records layout n nodes.now) (lent_records layout2 m other.now) (lent_records layout n third.old) (node_rows third.new) (report result) × Left third.old third.new (report result) }
{
    let mut flat = [0u16; 65792];
    let room = record_copy::load(third, &mut flat);
    let r = third_in_rows(layout, n, nodes, layout2, m, other, &mut flat, room);
    record_copy::store(&flat, third);
    r
}

// As `intersect`, with `third` as rows and their number of records.
fn third_in_rows(
    layout: Layout,
    n: usize,
    nodes: &[Node],
    layout2: Layout,
    m: usize,
    other: &[Node],
    third: &mut [u16],
    room: usize,
) -> Result<usize, Refusal>
    ensures { IntersectPromise (lent_records layout n nodes.now) (lent_records layout2 m other.now) (lent_nodes layout n room third.old) third.new (report result) }
{
    let mut flat = [0u16; 65792];
    let had = record_copy::load(other, &mut flat);
    other_in_rows(layout, n, nodes, layout2, m, &flat, had, third, room)
}

// As `intersect`, with `other` and `third` as rows and their number of records.
fn other_in_rows(
    layout: Layout,
    n: usize,
    nodes: &[Node],
    layout2: Layout,
    m: usize,
    other: &[u16],
    had: usize,
    third: &mut [u16],
    room: usize,
) -> Result<usize, Refusal>
    ensures { IntersectPromise (lent_records layout n nodes.now) (lent_nodes layout2 m had other.now) (lent_nodes layout n room third.old) third.new (report result) }
{
    let mut flat = [0u16; 65792];
    let have = record_copy::load(nodes, &mut flat);
    call_intersection::intersect(layout, n, &flat, have, layout2, m, other, had, third, room)
}
