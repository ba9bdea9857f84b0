// The book: a table of 384 mark words, four for each of up to 96 groups; and the list of a group that is to join it.
#![tactic(auto)]

ghost use Rattle.std.specs.Prelude.{◌≡◌, ℕ, ◌≤◌, ◌<◌, ◌+◌, ◌^◌, length, List};
ghost use Rattle.spec_orders.specs.Lists.{elem};
ghost use Rattle.spec_orders.specs.CircularOrder.{Restriction};
ghost use Rattle.mark_words.specs.Marks.{words_of};
ghost use Rattle.spec_calls.specs.Tables.{lent_book};
ghost use Rattle.spec_calls.specs.Book.{book_in_form?, booked, emptied};
ghost use Rattle.table_book.specs.Groups.{groups_in_form?};
ghost use Rattle.table_book.specs.Lists.{LeavesChecked, ListChecked};

use spec_calls::Refusal;

// Whether the first groups, so many, are in form: they mark leaves up to n only.
fn groups_in_form(book: &[u64], n: usize, count: usize) -> bool
    requires { (count ≤ 96) × (384 ≤ length book.now) }
    ensures { result ≡ groups_in_form? n (lent_book book.now count) 0 }
{
    for k in 0..count {
        let at = 4 * k;
        if !mark_sets::within(&book[at..at + 4], n) {
            return false;
        }
    }
    true
}

// Whether the book with this count is in form for n leaves.
pub fn in_form(book: &[u64], n: usize, count: usize) -> bool
    requires { 384 ≤ length book.now }
    ensures { result ≡ book_in_form? n (lent_book book.now count) }
{
    if count > 96 {
        return false;
    }
    if !groups_in_form(book, n, count) {
        return false;
    }
    let at = 4 * count;
    mark_sets::is_empty(&book[at..384])
}

// Writes the group with these four words to place k of the book.
pub fn put(book: &mut [u64], k: usize, marks: &[u64])
    requires { (k < 96) × (384 ≤ length book.old) × (length marks.now ≡ 4) }
    ensures { (G : Restriction) → marks.now ≡ words_of 4 G → book.new ≡ booked book.old k G }
{
    let from = 4 * k;
    let to = from + 4;
    book[from..to].copy_from_slice(marks);
}

// Empties the book: its 384 words become zero.
pub fn clear(book: &mut [u64])
    requires { 384 ≤ length book.old }
    ensures { book.new ≡ emptied book.old }
{
    mark_words::clear(&mut book[0..384]);
}

// Checks 5 and 6: whether the list is a group of n bins. Where it is, the four words get the group's marks.
pub fn check_list(list: &[u16], n: usize, marks: &mut [u64]) -> Result<(), Refusal>
    requires { (n ≤ 256) × (length marks.old ≡ 4) }
    ensures { ListChecked n list.now marks.new result }
{
    mark_words::clear(marks);
    for (k, &b) in list.iter().enumerate() {
        if b == 0 || b as usize > n {
            return Err(Refusal::OutsideRing(k));
        }
        if mark_words::test(marks, b) {
            return Err(Refusal::Repeated(k));
        }
        mark_words::set(marks, b);
    }
    Ok(())
}
