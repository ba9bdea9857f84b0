// The call of document 02's No. 1: two trees, one ring. A node table is lent as rows of 257 numbers, with the number of records that they are:
// `have`, `had` and `room`.
#![tactic(auto)]

ghost use Rattle.std.specs.Prelude.{◌≡◌, ◌&&◌, ℕ, ◌≤◌, eqb, length};
ghost use Rattle.spec_orders.specs.Layout.{leaf_count};
ghost use Rattle.spec_calls.specs.Tables.{lent_nodes};
ghost use Rattle.spec_calls.specs.Refusals.{report, first_refusal, same_layout};
ghost use Rattle.spec_calls.specs.Calls.{pair_sizes, pair_checks};
ghost use Rattle.spec_calls.specs.Promises.{IntersectPromise};
ghost use Rattle.table_book.specs.Lists.{refusal_in};
ghost use Rattle.call_intersection.specs.Common.{LendsCommon};

use spec_calls::Refusal;
use spec_orders::Layout;

// Whether both are rings, or both racks, of as many bins.
fn same_bins(layout: Layout, n: usize, layout2: Layout, m: usize) -> bool
    ensures { result ≡ (same_layout layout layout2 && eqb n m) }
{
    layout == layout2 && n == m
}

// Checks 1 and 15 on both counts of bins.
fn check_sizes(layout: Layout, n: usize, layout2: Layout, m: usize) -> Result<(), Refusal>
    ensures { refusal_in result ≡ first_refusal (pair_sizes layout n layout2 m) }
{
    if call_checks::bad_size(n) || call_checks::bad_size(m) {
        return Err(Refusal::RingSize);
    }
    if call_checks::full_rack(layout, n) || call_checks::full_rack(layout2, m) {
        return Err(Refusal::RackSize);
    }
    Ok(())
}

// Checks 1, 15, 2 and 13, on both node tables and the third.
fn check_pair(
    layout: Layout,
    n: usize,
    nodes: &[u16],
    have: usize,
    layout2: Layout,
    m: usize,
    other: &[u16],
    had: usize,
    third: &[u16],
    room: usize,
) -> Result<(), Refusal>
    ensures { refusal_in result ≡ first_refusal (pair_checks (lent_nodes layout n have nodes.now) (lent_nodes layout2 m had other.now) (lent_nodes layout n room third.now)) }
{
    check_sizes(layout, n, layout2, m)?;
    if call_checks::short(nodes, have)
        || call_checks::short(other, had)
        || call_checks::short(third, room)
    {
        return Err(Refusal::ShortTable);
    }
    if !same_bins(layout, n, layout2, m) {
        return Err(Refusal::BinCounts);
    }
    Ok(())
}

// Checks 3 and 8 on two whole node tables of so many leaves. Writes the tree that allows the orders allowed by both trees to the start of out, and
// says how many tokens it has; or why there is none.
fn common(leaves: usize, nodes: &[u16], other: &[u16], out: &mut [u16]) -> Result<usize, Refusal>
    requires { (1 ≤ leaves) × (leaves ≤ 256) × (65792 ≤ length nodes.now) × (65792 ≤ length other.now) × (512 ≤ length out.old) }
    ensures { (layout : Layout) (n have had : ℕ) → leaves ≡ leaf_count layout n
        → LendsCommon (lent_nodes layout n have nodes.now) (lent_nodes layout n had other.now) out.old out.new result }
{
    let mut first = [0u16; 512];
    let Some(j) = table_walk::load(nodes, leaves, &mut first) else {
        return Err(Refusal::NotInForm);
    };
    let mut second = [0u16; 512];
    let Some(k) = table_walk::load(other, leaves, &mut second) else {
        return Err(Refusal::NotInForm);
    };
    let found = tree_intersection::intersect(&first[0..j], &second[0..k], leaves, out);
    let Some(size) = found else {
        return Err(Refusal::Impossible);
    };
    Ok(size)
}

// Writes the tree that allows exactly the orders allowed by the tree of n bins and by that of m to the third node table; a rack is taken as its ring of
// n + 1 bins. Answers 0; or refuses (1, 15, 2, 13, 3, 8), and leaves every table as it was.
pub fn intersect(
    layout: Layout,
    n: usize,
    nodes: &[u16],
    have: usize,
    layout2: Layout,
    m: usize,
    other: &[u16],
    had: usize,
    third: &mut [u16],
    room: usize,
) -> Result<usize, Refusal>
    ensures { IntersectPromise (lent_nodes layout n have nodes.now) (lent_nodes layout2 m had other.now) (lent_nodes layout n room third.old) third.new (report result) }
{
    check_pair(layout, n, nodes, have, layout2, m, other, had, third, room)?;
    let mut toks = [0u16; 512];
    let k = common(layout.leaf_count(n), nodes, other, &mut toks)?;
    table_store::store(&toks[0..k], third);
    Ok(0)
}
