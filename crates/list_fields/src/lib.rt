// The fields of a group line, appended to lent bytes.
#![tactic(auto)]

ghost use Rattle.std.specs.Prelude.{◌≡◌, List, ◌++◌, ℕ, ◌+◌, ◌≤◌, length, take};
ghost use Rattle.spec_orders.specs.declared.Layout.TheVariants.{Ring};
ghost use Rattle.spec_orders.specs.Lists.{elem};
ghost use Rattle.spec_orders.specs.CircularOrder.{WellFormed, group_of};
ghost use Rattle.spec_orders.specs.Circles.{bytes};
ghost use Rattle.mark_words.specs.Marks.{words_of};
ghost use Rattle.spec_calls.specs.Tables.{lent_book};
ghost use Rattle.spec_calls.specs.Calls.{conflicts_of};
ghost use Rattle.list_bytes.specs.Appends.{Appends};
ghost use Rattle.spec_listing.specs.Listing.{RingState, outcome, next, commas, aim_field, fields};
ghost use Rattle.list_ring.specs.Stands.{RingStands, Line};
ghost use Rattle.list_fields.specs.Ordered.{Ordered};

use file_read::RingFile;
use list_bytes::put;

// Marks the group of a line: its list passes the checks.
fn mark_line(list: &[u16], n: usize, marks: &mut [u64])
    requires { (n ≤ 256) × (length marks.old ≡ 4) × (WellFormed n list.now) }
    ensures { marks.new ≡ words_of 4 (group_of n list.now) }
{
    let _ = table_book::check_list(list, n, marks);
}

// Appends the fields of a group line that is refused: the groups in conflict with it, of the book's first `count`, by their input lines.
fn put_refused(
    n: usize,
    list: &[u16],
    count: usize,
    book: &[u64],
    table: &[usize],
    out: &mut [u8],
    at: usize,
) -> usize
    requires { (n ≤ 256) × (WellFormed n list.now) × (count ≤ 96) × (384 ≤ length book.now) × (count ≤ length table.now)
        × (at + 2048 ≤ length out.old) }
    ensures { (result ≤ at + 2048)
        × (Appends (bytes " refused - " ++ commas (take count table.now) (conflicts_of Ring n (lent_book book.now count) (elem list.now)))
        at out.old out.new result) }
{
    let mut group = [0; 4];
    mark_line(list, n, &mut group);
    let mut numbers = [0; 96];
    let k = call_conflict::find(n, book, count, &group, &mut numbers);
    let a = put(b" refused - ", out, at);
    list_series::put_conflicts(&numbers[..k], &table[..count], out, a)
}

// Appends the fields of a group line that is kept: its aim in the order, or `-` where it has no leaf.
fn put_kept(file: RingFile, list: &[u16], order: &[u16], out: &mut [u8], at: usize) -> usize
    requires { (WellFormed file.names list.now) × (Ordered file.names order.now) × (at + 2048 ≤ length out.old) }
    ensures { (result ≤ at + 2048)
        × (Appends (bytes " kept " ++ (aim_field file.entry.holds.ns order.now list.now ++ bytes " -")) at out.old out.new result) }
{
    if list.len() == 0 {
        return put(b" kept - -", out, at);
    }
    let mut words = [0; 4];
    mark_line(list, file.names, &mut words);
    let leaf = call_order::middle(&words, order);
    let a = put(b" kept ", out, at);
    let b = put(file.name(leaf), out, a);
    put(b" -", out, b)
}

// Appends what follows the number of a group line. The ring had `before` groups, and has `after` of them, in this book and table, after the line.
pub fn put_fields(
    file: RingFile,
    list: &[u16],
    order: &[u16],
    before: usize,
    after: usize,
    book: &[u64],
    table: &[usize],
    out: &mut [u8],
    at: usize,
) -> usize
    requires { (Line file.names list.now) × (Ordered file.names order.now) × (384 ≤ length book.now) × (96 ≤ length table.now)
        × (before ≤ 96) × (at + 2048 ≤ length out.old) }
    ensures { (result ≤ at + 2048) × ((s : RingState) (k : ℕ) (toks : List ℕ) (m : ℕ)
        → before ≡ length s.groups
        → RingStands file.entry.names (next s k list.now (outcome file.entry.names s list.now)) toks m book.now table.now after
        → Appends (fields file.entry.holds.ns order.now s list.now (outcome file.entry.names s list.now)) at out.old out.new result) }
{
    if before == 96 {
        return put(b" full - -", out, at);
    }
    if before < after {
        return put_kept(file, list, order, out, at);
    }
    put_refused(file.names, list, before, book, table, out, at)
}
