// The call that tries a group, on a node table of records, which are only read.
#![tactic(auto)]

ghost use Rattle.spec_calls.specs.Tables.{lent_book};
ghost use Rattle.spec_calls.specs.Refusals.{report};
ghost use Rattle.spec_calls.specs.Promises.{TrialPromise};
ghost use Rattle.record_left.specs.Records.{lent_records};

use record_copy::Node;
use spec_calls::Refusal;
use spec_orders::Layout;

// Answers as joining the list's group would, and changes nothing.
pub fn trial(
    layout: Layout,
    n: usize,
    nodes: &[Node],
    book: &[u64],
    count: usize,
    list: &[u16],
) -> Result<usize, Refusal>
    ensures { TrialPromise (lent_records layout n nodes.now) (lent_book book.now count) list.now (report result) }
{
    let mut work = [0u64; 265];
    let short = nodes.len() < 256;
    let waiting = call_trial::ready(layout, n, short, book, count, list, &mut work);
    let leaves = layout.leaf_count(n);
    record_sweep::sweep(nodes, leaves, &mut work);
    call_trial::conclude(layout, n, &work, waiting)
}
