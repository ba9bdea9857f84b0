// The calls that read the order of a ring's or a rack's tree: the standard order, and the aim of a book's group in it. A node table is lent as
// rows of 257 numbers, with the number of records that they are.
#![tactic(auto)]

ghost use Rattle.std.specs.Prelude.{◌≡◌, ◌+◌, ◌≤◌, ◌<◌, length};
ghost use Rattle.tree_tokens.specs.Tokens.{flat};
ghost use Rattle.spec_orders.specs.Tree.{Forest};
ghost use Rattle.spec_orders.specs.declared.Layout.TheVariants.{Ring};
ghost use Rattle.spec_orders.specs.Layout.{Visible};
ghost use Rattle.spec_orders.specs.Conflict.{consecutive_on?};
ghost use Rattle.spec_orders.specs.Aim.{start_after, before_first, rounded, aim_of};
ghost use Rattle.mark_words.specs.Marks.{marked, leaves_of};
ghost use Rattle.spec_calls.specs.Tables.{lent_nodes, lent_book};
ghost use Rattle.spec_calls.specs.Refusals.{report};
ghost use Rattle.spec_calls.specs.Promises.{OrderPromise, AimPromise};
ghost use Rattle.call_order.specs.Starts.{enters, starts, GroupWithin, aim_in};
ghost use Rattle.call_order.specs.Rings.{Lends, aim_of_group};

use spec_calls::Refusal;
use spec_orders::Layout;

// Writes the standard order to the first n places of order. Answers n; or refuses (1, 15, 2, 3), and leaves them as they were.
pub fn order(
    layout: Layout,
    n: usize,
    nodes: &[u16],
    have: usize,
    order: &mut [u16],
) -> Result<usize, Refusal>
    ensures { OrderPromise (lent_nodes layout n have nodes.now) order.old order.new (report result) }
{
    let mut toks = [0u16; 512];
    let k = call_checks::lent_tree(layout, n, nodes, have, order.len() < n, &mut toks)?;
    Ok(tree_order::order_on(layout, n, &toks[0..k], order))
}

// Whether the leaf is marked and the one before it is not.
fn enters(words: &[u64], before: u16, leaf: u16) -> bool
    ensures { result ≡ enters (marked words.now) before leaf }
{
    !mark_words::test(words, before) && mark_words::test(words, leaf)
}

// How many marked leaves follow one that is not marked; `before` stands before the first.
fn starts(words: &[u64], before: u16, order: &[u16]) -> usize
    ensures { (result ≤ length order.now) × (result ≡ starts (marked words.now) before order.now) }
{
    if order.len() == 0 {
        return 0;
    }
    let leaf = order[0];
    if enters(words, before, leaf) {
        return 1 + starts(words, leaf, &order[1..]);
    }
    starts(words, leaf, &order[1..])
}

// The place, counted from p on, of the first marked leaf that follows one that is not marked; 0 where there is none, as
// `start_after` says.
fn first_start(words: &[u64], before: u16, p: usize, order: &[u16]) -> usize
    requires { p + length order.now ≤ 512 }
    ensures { (result ≤ 512) × (result ≡ start_after (marked words.now) before p order.now) }
{
    if order.len() == 0 {
        return 0;
    }
    let leaf = order[0];
    if enters(words, before, leaf) {
        return p;
    }
    first_start(words, leaf, p + 1, &order[1..])
}

// What stands before the first place: on a ring the last leaf, on a rack the hidden end bin.
fn before_first(layout: Layout, order: &[u16]) -> u16
    requires { (0 < length order.now) × (length order.now ≤ 256) }
    ensures { result ≡ before_first layout order.now }
{
    match layout {
        Layout::Ring => order[order.len() - 1],
        Layout::Rack => (order.len() + 1) as u16,
    }
}

// Whether the marked leaves are consecutive in the order.
fn is_consecutive(layout: Layout, words: &[u64], order: &[u16]) -> bool
    requires { (0 < length order.now) × (length order.now ≤ 256) × Visible layout (length order.now) (marked words.now) }
    ensures { result ≡ consecutive_on? layout (marked words.now) order.now }
{
    starts(words, before_first(layout, order), order) <= 1
}

// How many leaves a group's four words mark.
fn size(words: &[u64]) -> usize
    requires { length words.now ≡ 4 }
    ensures { result ≡ length (leaves_of words.now) }
{
    mark_sets::size(words[0], words[1], words[2], words[3])
}

// The place that the middle between two neighbouring places is rounded to: the even one, or 0 where the upper one is 0. Of one place twice, that place.
fn rounded(lower: usize, upper: usize) -> usize
    ensures { result ≡ rounded lower upper }
{
    if upper == 0 {
        return 0;
    }
    if lower % 2 == 0 {
        return lower;
    }
    upper
}

// The leaf in the middle of the run of marked leaves in the circular order; of two, the one at the rounded place.
pub fn middle(words: &[u64], order: &[u16]) -> usize
    requires { GroupWithin words.now order.now }
    ensures { result ≡ aim_of Ring (marked words.now) order.now }
{
    let n = order.len();
    let last = order[n - 1];
    let start = first_start(words, last, 0, order);
    let size = size(words);
    let lower = (start + (size - 1) / 2) % n;
    let upper = (start + size / 2) % n;
    order[rounded(lower, upper)] as usize
}

// The aim of the group with these marks, or that it is not consecutive. A run that does not pass the ends has the middle that it has in a circle.
fn aim_in(layout: Layout, words: &[u64], order: &[u16]) -> Result<usize, Refusal>
    requires { (GroupWithin words.now order.now) × (Visible layout (length order.now) (marked words.now)) }
    ensures { result ≡ aim_in layout (marked words.now) order.now }
{
    if is_consecutive(layout, words, order) {
        return Ok(middle(words, order));
    }
    Err(Refusal::NotConsecutive)
}

// Checks 9, 14 and 10 on the book's group with this number, and its aim in the standard order of the tree.
fn group_aim(
    layout: Layout,
    n: usize,
    toks: &[u16],
    book: &[u64],
    count: usize,
    group: usize,
) -> Result<usize, Refusal>
    requires { Lends layout n toks.now (lent_book book.now count) }
    ensures { (t : Forest) → toks.now ≡ flat t → result ≡ aim_of_group layout n (lent_book book.now count) group t }
{
    if group == 0 || group > count {
        return Err(Refusal::NoSuchGroup);
    }
    let at = 4 * (group - 1);
    let end = at + 4;
    if mark_sets::is_empty(&book[at..end]) {
        return Err(Refusal::NoAim);
    }
    let mut order = [0u16; 256];
    let m = tree_order::order_on(layout, n, toks, &mut order);
    aim_in(layout, &book[at..end], &order[0..m])
}

// The leaf at which the group with this number is aimed (the middle of its run), in the standard order; or refuses (1, 15, 2, 3, 9, 14, 10).
pub fn aim(
    layout: Layout,
    n: usize,
    nodes: &[u16],
    have: usize,
    book: &[u64],
    count: usize,
    group: usize,
) -> Result<usize, Refusal>
    ensures { AimPromise (lent_nodes layout n have nodes.now) (lent_book book.now count) group (report result) }
{
    let mut toks = [0u16; 512];
    let k = call_checks::lent_ring(layout, n, nodes, have, book, count, &mut toks)?;
    group_aim(layout, n, &toks[0..k], book, count, group)
}
