// The conflict call: which groups of the book are impossible together with a new one, none of them needlessly.
#![tactic(auto)]

ghost use Rattle.std.specs.Prelude.{◌≡◌, ◌≤◌, length};
ghost use Rattle.spec_orders.specs.declared.Layout.TheVariants.{Ring};
ghost use Rattle.spec_orders.specs.Lists.{numbers_from};
ghost use Rattle.mark_words.specs.Marks.{marked};
ghost use Rattle.tree_tokens.specs.Tokens.{Wrote};
ghost use Rattle.spec_calls.specs.Tables.{lent_book};
ghost use Rattle.spec_calls.specs.Calls.{conflicts_of};
ghost use Rattle.spec_calls.specs.Refusals.{report};
ghost use Rattle.spec_calls.specs.Promises.{ConflictPromise};

use spec_calls::Refusal;
use spec_orders::Layout;

// Writes the numbers 1 to count, and says how many.
fn rising(count: usize, out: &mut [u16]) -> usize
    requires { (count ≤ 96) × (count ≤ length out.old) }
    ensures { Wrote (numbers_from 1 count) out.old out.new result }
{
    for i in 0..count {
        out[i] = (i + 1) as u16;
    }
    count
}

// Writes the numbers of the groups in conflict with the group that four words mark, in a ring of n bins, rising, and says how many.
pub fn find(n: usize, book: &[u64], count: usize, group: &[u64], out: &mut [u16]) -> usize
    requires { (n ≤ 256) × (384 ≤ length book.now) × (count ≤ 96) × (length group.now ≡ 4) × (count ≤ length out.old) }
    ensures { Wrote (conflicts_of Ring n (lent_book book.now count) (marked group.now)) out.old out.new result }
{
    let mut words = [group[0], group[1], group[2], group[3]];
    conflict_leaves::choose(&mut words, book, n);
    let mut start = [0u16; 512];
    let m = conflict_leaves::start_tree(&words, n, &mut start);
    let mut toks = [0u16; 512];
    let got = tree_update::join(&start[0..m], group, n, &mut toks);
    // One group by itself always joins.
    let Some(k) = got else {
        return 0;
    };
    let mut numbers = [0u16; 96];
    let many = rising(count, &mut numbers);
    conflict_rule::leave_out(&toks[0..k], book, n, &numbers[0..many], out)
}

// Writes the numbers of the groups in conflict with the list's group, rising, and zeros up to 96 places: those of a rack are those of its ring of n + 1
// bins. Answers how many numbers there are; or refuses (1, 15, 2, 3, 5, 6), and leaves the places as they were.
pub fn conflict(
    layout: Layout,
    n: usize,
    book: &[u64],
    count: usize,
    list: &[u16],
    conflicts: &mut [u16],
) -> Result<usize, Refusal>
    ensures { ConflictPromise layout n (lent_book book.now count) list.now conflicts.old conflicts.new (report result) }
{
    call_checks::lent_book(layout, n, book, count, conflicts.len() < 96)?;
    let mut group = [0u64; 4];
    table_book::check_list(list, n, &mut group)?;
    let mut numbers = [0u16; 96];
    let leaves = layout.leaf_count(n);
    let k = find(leaves, book, count, &group, &mut numbers);
    tree_tokens::copy(&numbers, conflicts);
    Ok(k)
}
