// The checks that calls on a lent ring or rack share: 1, 15, 2 and 3 on its node table and its book. Those on a node table load the tree.
#![tactic(auto)]

ghost use Rattle.std.specs.Prelude.{◌≡◌, ◌≤◌, length};
ghost use Rattle.spec_orders.specs.declared.Layout.TheVariants.{Ring};
ghost use Rattle.spec_calls.specs.Tables.{lent_nodes, lent_book};
ghost use Rattle.spec_calls.specs.Refusals.{first_refusal, bad_size, full_rack, size_checks, short_nodes};
ghost use Rattle.spec_calls.specs.Calls.{table_checks};
ghost use Rattle.table_book.specs.Lists.{refusal_in};
ghost use Rattle.call_checks.specs.Lent.{book_checks, LendsTree, LendsRing};

use spec_calls::Refusal;
use spec_orders::Layout;

// Whether a node table of `have` records is too short.
pub fn short(nodes: &[u16], have: usize) -> bool
    ensures { result ≡ short_nodes (lent_nodes Ring 0 have nodes.now) }
{
    have < 256 || nodes.len() < 65792
}

// Whether a count of bins is refused by 1.
pub fn bad_size(n: usize) -> bool
    ensures { result ≡ bad_size n }
{
    n == 0 || n > 256
}

// Whether a count of bins that 1 passes is refused by 15.
pub fn full_rack(layout: Layout, n: usize) -> bool
    ensures { result ≡ full_rack layout n }
{
    layout == Layout::Rack && n == 256
}

// Checks 1 and 15.
pub fn check_size(layout: Layout, n: usize) -> Result<(), Refusal>
    ensures { refusal_in result ≡ first_refusal (size_checks layout n) }
{
    if bad_size(n) {
        return Err(Refusal::RingSize);
    }
    if full_rack(layout, n) {
        return Err(Refusal::RackSize);
    }
    Ok(())
}

// Checks 1, 15 and 2 on a node table of `have` records; `other` says that another lent table is too short.
pub fn check_tables(
    layout: Layout,
    n: usize,
    nodes: &[u16],
    have: usize,
    other: bool,
) -> Result<(), Refusal>
    ensures { refusal_in result ≡ first_refusal (table_checks (lent_nodes layout n have nodes.now) other) }
{
    check_size(layout, n)?;
    if short(nodes, have) || other {
        return Err(Refusal::ShortTable);
    }
    Ok(())
}

// Checks 1, 15, 2 and 3 on a node table of `have` records; `other` says that another lent table is too short. Writes the tree to the start of toks.
pub fn lent_tree(
    layout: Layout,
    n: usize,
    nodes: &[u16],
    have: usize,
    other: bool,
    toks: &mut [u16],
) -> Result<usize, Refusal>
    requires { 512 ≤ length toks.old }
    ensures { LendsTree (lent_nodes layout n have nodes.now) other toks.old toks.new result }
{
    check_tables(layout, n, nodes, have, other)?;
    let leaves = layout.leaf_count(n);
    let Some(k) = table_walk::load(nodes, leaves, toks) else {
        return Err(Refusal::NotInForm);
    };
    Ok(k)
}

// Checks 1, 15, 2 and 3 on a node table of `have` records and a book of `count` groups. Writes the tree to the start of toks.
pub fn lent_ring(
    layout: Layout,
    n: usize,
    nodes: &[u16],
    have: usize,
    book: &[u64],
    count: usize,
    toks: &mut [u16],
) -> Result<usize, Refusal>
    requires { 512 ≤ length toks.old }
    ensures { LendsRing (lent_nodes layout n have nodes.now) (lent_book book.now count) toks.old toks.new result }
{
    let k = lent_tree(layout, n, nodes, have, book.len() < 384, toks)?;
    if !table_book::in_form(book, n, count) {
        return Err(Refusal::NotInForm);
    }
    Ok(k)
}

// Checks 1, 15, 2 and 3 on a book of `count` groups, lent without a node table; `other` says that another lent table is too short.
pub fn lent_book(
    layout: Layout,
    n: usize,
    book: &[u64],
    count: usize,
    other: bool,
) -> Result<(), Refusal>
    ensures { refusal_in result ≡ first_refusal (book_checks layout n (lent_book book.now count) other) }
{
    check_size(layout, n)?;
    if book.len() < 384 || other {
        return Err(Refusal::ShortTable);
    }
    if !table_book::in_form(book, n, count) {
        return Err(Refusal::NotInForm);
    }
    Ok(())
}
