// The calls that make and change the lent tables of a ring or a rack: opening it, joining a group, trying one. A node table is lent as rows of 257
// numbers, with the number of records that they are.
#![tactic(auto)]

ghost use Rattle.std.specs.Prelude.{◌≡◌, length};
ghost use Rattle.spec_calls.specs.Tables.{lent_nodes, lent_book};
ghost use Rattle.spec_calls.specs.Refusals.{report};
ghost use Rattle.spec_calls.specs.Promises.{OpenPromise, JoinPromise, TrialPromise};
ghost use Rattle.call_trial.specs.Trials.{TrialSays};

use spec_calls::Refusal;
use spec_orders::Layout;

// Opens a ring or rack of n bins: its node table gets the fresh tree, and its book is emptied. Answers the count of groups, 0; or refuses (1, 15, 2).
pub fn open(
    layout: Layout,
    n: usize,
    nodes: &mut [u16],
    have: usize,
    book: &mut [u64],
) -> Result<usize, Refusal>
    ensures { OpenPromise (lent_nodes layout n have nodes.old) (lent_book book.old 0) nodes.new (lent_book book.new 0) (report result) }
{
    call_checks::check_tables(layout, n, nodes, have, book.len() < 384)?;
    let mut toks = [0u16; 512];
    let k = tree_tokens::fresh(layout.leaf_count(n), &mut toks);
    table_store::store(&toks[0..k], nodes);
    table_book::clear(book);
    Ok(0)
}

// Answers as joining the list's group would. Where it does not refuse, marks has the group's four words, and work what the sweep of the node table
// keeps.
fn tried(
    layout: Layout,
    n: usize,
    nodes: &[u16],
    have: usize,
    book: &[u64],
    count: usize,
    list: &[u16],
    marks: &mut [u64],
    work: &mut [u64],
) -> Result<usize, Refusal>
    requires { (length marks.old ≡ 4) × (length work.old ≡ 265) }
    ensures { TrialSays (lent_nodes layout n have nodes.now) (lent_book book.now count) list.now marks.new work.new result }
{
    let short = call_checks::short(nodes, have);
    let waiting = call_trial::prepare(layout, n, short, book, count, list, marks, work);
    if short {
        return waiting;
    }
    table_sweep::sweep(nodes, layout.leaf_count(n), work);
    call_trial::conclude(layout, n, work, waiting)
}

// Joins the list's group: the node table gets the new tree, and the group takes the book's next place. Answers the new count of groups; or
// refuses (1, 15, 2, 3, 5 to 8), and leaves both tables as they were.
pub fn join(
    layout: Layout,
    n: usize,
    nodes: &mut [u16],
    have: usize,
    book: &mut [u64],
    count: usize,
    list: &[u16],
) -> Result<usize, Refusal>
    ensures { JoinPromise (lent_nodes layout n have nodes.old) (lent_book book.old count) list.now nodes.new (lent_book book.new count) (report result) }
{
    let mut marks = [0u64; 4];
    let mut work = [0u64; 265];
    let next = tried(
        layout, n, nodes, have, book, count, list, &mut marks, &mut work,
    )?;
    table_update::update(layout.leaf_count(n), nodes, &work);
    table_book::put(book, count, &marks);
    Ok(next)
}

// Answers as joining the list's group would, and changes nothing.
pub fn trial(
    layout: Layout,
    n: usize,
    nodes: &[u16],
    have: usize,
    book: &[u64],
    count: usize,
    list: &[u16],
) -> Result<usize, Refusal>
    ensures { TrialPromise (lent_nodes layout n have nodes.now) (lent_book book.now count) list.now (report result) }
{
    let mut marks = [0u64; 4];
    let mut work = [0u64; 265];
    tried(
        layout, n, nodes, have, book, count, list, &mut marks, &mut work,
    )
}
