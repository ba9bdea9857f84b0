// The call that intersects two trees, for C and Rust, on node tables of rows of 257 numbers, one row a record. Each returns 0, or the number of its
// refusal, and writes one number through `value`: its own answer; or the place or byte of the refusal, 0 where the table names none. Written by
// tools/outer.py.
#![tactic(auto)]

ghost use Rattle.spec_orders.specs.Layout.{layout_numbered};
ghost use Rattle.spec_calls.specs.Tables.{lent_rows};
ghost use Rattle.spec_calls.specs.Refusals.{reply};
ghost use Rattle.spec_calls.specs.Promises.{IntersectPromise};

use spec_orders::Layout;

// Writes the tree that allows exactly the orders allowed by the tree of n bins and by that of m to the third node table; a rack is taken as its ring
// of n + 1 bins. The value is 0.
#[unsafe(no_mangle)]
pub extern "C" fn tokuwhape_intersect(
    layout: u8,
    n: usize,
    nodes: &[u16],
    layout2: u8,
    m: usize,
    other: &[u16],
    third: &mut [u16],
    value: &mut usize,
) -> u8
    ensures { IntersectPromise (lent_rows (layout_numbered layout) n nodes.now) (lent_rows (layout_numbered layout2) m other.now) (lent_rows (layout_numbered layout) n third.old) third.new (reply result value.new) }
{
    let layout = Layout::from(layout);
    let layout2 = Layout::from(layout2);
    let have = c_rows::records(nodes);
    let had = c_rows::records(other);
    let room = c_rows::records(third);
    let answer = call_intersection::intersect(
        layout, n, nodes, have, layout2, m, other, had, third, room,
    );
    spec_calls::code(answer, value)
}
