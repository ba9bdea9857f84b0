// The trial in two steps, for a node table of rows and for one of records, with which joining begins too: the checks that need no node table, and
// the answer when the table was swept. Between them the table is read once, and none of its records is written anywhere.
#![tactic(auto)]

ghost use Rattle.std.specs.Prelude.{◌≡◌, List, ℕ, ◌≤◌, length};
ghost use Rattle.std.proofs.Math.Option.{none};
ghost use Rattle.spec_orders.specs.Layout.{leaf_count};
ghost use Rattle.mark_words.specs.Marks.{marked};
ghost use Rattle.spec_calls.specs.Tables.{Book, lent_nodes, lent_book};
ghost use Rattle.spec_calls.specs.Refusals.{report, bad_list};
ghost use Rattle.spec_calls.specs.Promises.{TrialPromise};
ghost use Rattle.call_trial.specs.Trials.{Waits, GroupWords, Side, Ready, AfterSweep, up_to_3, settled};

use spec_calls::Refusal;
use spec_orders::Layout;
use table_sweep::Verdict;

// Checks 1, 15, 2, 3 on the book, 5, 6 and 7; `short` says that the node table is too short. Answers the new count of groups, or refuses. Where it does
// not refuse, marks has the group's four words.
fn check_group(
    layout: Layout,
    n: usize,
    short: bool,
    book: &[u64],
    count: usize,
    list: &[u16],
    marks: &mut [u64],
) -> Result<usize, Refusal>
    requires { length marks.old ≡ 4 }
    ensures { Waits layout n short (lent_book book.now count) list.now (GroupWords n list.now marks.new) result }
{
    call_checks::lent_book(layout, n, book, count, short)?;
    table_book::check_list(list, n, marks)?;
    if count == 96 {
        return Err(Refusal::BookFull);
    }
    Ok(count + 1)
}

// The marks of a group become those of its side that leaf 1 is not in.
fn take_side(marks: &mut [u64], leaves: usize)
    requires { length marks.old ≡ 4 }
    ensures { (layout : Layout) (n : ℕ) (list : List ℕ) → leaves ≡ leaf_count layout n → leaves ≤ 256
        → GroupWords n list marks.old → bad_list n list ≡ none → Side layout n list (marked marks.new) }
{
    if mark_words::test(marks, 1) {
        mark_sets::complement(marks, leaves);
        return;
    }
}

// What the trial answers if the node table holds a tree that the group can join; `short` says that the table is too short. Where it does not refuse,
// marks has the group's four words. Makes work ready for the sweep of the table, with the side of the group that leaf 1 is not in.
pub fn prepare(
    layout: Layout,
    n: usize,
    short: bool,
    book: &[u64],
    count: usize,
    list: &[u16],
    marks: &mut [u64],
    work: &mut [u64],
) -> Result<usize, Refusal>
    requires { (length marks.old ≡ 4) × (length work.old ≡ 265) }
    ensures { (Waits layout n short (lent_book book.now count) list.now (GroupWords n list.now marks.new) result)
        × (Ready layout n short (lent_book book.now count) list.now work.new result) }
{
    let answer = check_group(layout, n, short, book, count, list, marks);
    let mut side = [marks[0], marks[1], marks[2], marks[3]];
    take_side(&mut side, layout.leaf_count(n));
    table_sweep::begin(&side, work);
    answer
}

// The same with four words of its own, for a caller that does not need the group's.
pub fn ready(
    layout: Layout,
    n: usize,
    short: bool,
    book: &[u64],
    count: usize,
    list: &[u16],
    work: &mut [u64],
) -> Result<usize, Refusal>
    requires { length work.old ≡ 265 }
    ensures { Ready layout n short (lent_book book.now count) list.now work.new result }
{
    let mut marks = [0u64; 4];
    prepare(layout, n, short, book, count, list, &mut marks, work)
}

// Whether the refusal stands down the table up to 3.
fn up_to_3(refusal: Refusal) -> bool
    ensures { result ≡ up_to_3 refusal }
{
    matches!(
        refusal,
        Refusal::RingSize | Refusal::ShortTable | Refusal::NotInForm | Refusal::RackSize
    )
}

// The first of two answers, down the table of refusals: what the node table says, 3 or 8, and what waits for it.
fn settled(verdict: Verdict, waiting: Result<usize, Refusal>) -> Result<usize, Refusal>
    ensures { result ≡ settled verdict waiting }
{
    match (verdict, waiting) {
        (Verdict::Possible, _) => waiting,
        (Verdict::Impossible, Ok(_)) => Err(Refusal::Impossible),
        (Verdict::Impossible, Err(_)) => waiting,
        (Verdict::NoTree, Err(refusal)) if up_to_3(refusal) => waiting,
        (Verdict::NoTree, _) => Err(Refusal::NotInForm),
    }
}

// What the trial answers when the node table was swept. `waiting` is what it answers if the table holds a tree that the group can join.
pub fn conclude(
    layout: Layout,
    n: usize,
    work: &[u64],
    waiting: Result<usize, Refusal>,
) -> Result<usize, Refusal>
    requires { length work.now ≡ 265 }
    ensures { (records : ℕ) (rows : List ℕ) (book : Book) (list : List ℕ) → AfterSweep (lent_nodes layout n records rows) book list work.now waiting
        → TrialPromise (lent_nodes layout n records rows) book list (report result) }
{
    settled(table_sweep::at_end(layout.leaf_count(n), work), waiting)
}
