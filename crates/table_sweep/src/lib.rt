// The node table read record by record, from the last to the first, without writing its tree anywhere. A child's record has a larger number than
// its parent's, so at each record the roots behind it, the nodes whose parents are still to come, are known by three numbers each: the first
// leaf, how many records the node takes, and its state under a restriction. `work`, 265 numbers, holds what is kept:
//     0 to 3      the marks of the restriction
//     4 to 7      the marks of the leaves read so far
//     8 to 263    of the node in record r, at 8 + r: first leaf + 512 * (records + 512 * state); it stays when the node is no root any more
//     264         0: all records so far are blank; else how many records are used, or 257: this is the table of no tree
#![tactic(auto)]

ghost use Rattle.std.specs.Prelude.{◌≡◌, ◌↔◌, not, IsTrue, EachIndex, List, ◌∷◌, ℕ, suc, ◌+◌, ◌≤◌, ◌<◌, length, slice_index};
ghost use Rattle.spec_orders.specs.CircularOrder.{Restriction};
ghost use Rattle.spec_orders.specs.Tree.{Forest};
ghost use Rattle.spec_orders.specs.Form.{fewest};
ghost use Rattle.spec_calls.specs.NodeTable.{tree_in};
ghost use Rattle.spec_calls.specs.Calls.{is_none};
ghost use Rattle.tree_judge.specs.Automaton.{start, code};
ghost use Rattle.table_reading.specs.Reading.{least, head, row_at};
ghost use Rattle.mark_words.specs.Marks.{marked};
ghost use Rattle.table_sweep.specs.Kept.{tree_kind, KindSays, Inside, Small, SameRecords, LeafSays, RootSays, EntrySays, RowSays, RowSmall, NodeSays, Finished, Swept, Started, Told};

// What an item comes to: its first leaf, how many records it takes, and its state.
#[derive(Clone, Copy)]
struct Item {
    first: u16,
    records: usize,
    state: u16,
}

// The item that leaf b is; None where it is not from 2 to n, or was read before. Marks it as read.
fn read_leaf(b: u16, n: usize, work: &mut [u64]) -> Option<Item>
    requires { (b ≤ 256) × (length work.old ≡ 265) }
    ensures { (Small result) × (SameRecords work.old work.new)
        × ((S : Restriction) (x : ℕ) (g : Forest) (ls : List ℕ) → Inside S work.old x g ls → LeafSays n S x g ls b work.new result) }
{
    if b < 2 || b as usize > n {
        return None;
    }
    if mark_words::test(&work[4..8], b) {
        return None;
    }
    mark_words::set(&mut work[4..8], b);
    Some(Item {
        first: b,
        records: 0,
        state: u16::from(mark_words::test(&work[0..4], b)),
    })
}

// The item that the root in record `next` is; None past the records that are used.
fn read_root(next: usize, work: &[u64]) -> Option<Item>
    requires { length work.now ≡ 265 }
    ensures { (Small result) × ((S : Restriction) (g : Forest) (ls : List ℕ) → Inside S work.now next g ls → RootSays S g result) }
{
    if next > 255 || work[264] <= next as u64 {
        return None;
    }
    let w = work[8 + next];
    Some(Item {
        first: (w % 512) as u16,
        records: (w / 512 % 512) as usize,
        state: (w / 262144 % 5) as u16,
    })
}

// The item that an entry of a record names, where the next root is in record `next`; None where it names no leaf that is new, and not that root.
fn read_entry(v: u16, next: usize, n: usize, work: &mut [u64]) -> Option<Item>
    requires { (next ≤ 200000) × (length work.old ≡ 265) }
    ensures { (Small result) × (SameRecords work.old work.new)
        × ((S : Restriction) (g : Forest) (ls : List ℕ) → Inside S work.old next g ls → EntrySays n S next g ls v work.new result) }
{
    if v <= 256 {
        return read_leaf(v, n, work);
    }
    if v as usize != 256 + next {
        return None;
    }
    read_root(next, work)
}

// The kind of a node, as a record tells it by number. The text's reader has one for letters: neither crate knows the other.
#[derive(Clone, Copy)]
enum NodeKind {
    P,
    C,
}

// The kind that a record tells by this number; None where it tells none.
fn kind_of(number: u16) -> Option<NodeKind>
    ensures { KindSays number result }
{
    match number {
        1 => Some(NodeKind::P),
        2 => Some(NodeKind::C),
        _ => None,
    }
}

// How many items a node has at least.
fn fewest(kind: NodeKind) -> u16
    ensures { result ≡ fewest (tree_kind kind) }
{
    match kind {
        NodeKind::P => 2,
        NodeKind::C => 3,
    }
}

// What the first leaf of the next item of a node must be above: `last`, that of the item before it, in a P-node.
fn least(kind: NodeKind, last: u16) -> u16
    ensures { result ≡ least (tree_kind kind) last }
{
    match kind {
        NodeKind::P => last,
        NodeKind::C => 0,
    }
}

// Where the automaton starts on the items of a node.
fn start(kind: NodeKind) -> u8
    ensures { (result < 17) × (result ≡ code (start (tree_kind kind))) }
{
    match kind {
        NodeKind::P => 0,
        NodeKind::C => 8,
    }
}

// What a node's items come to: the first leaves of the first and the last item, the record after them, and where they take the automaton.
#[derive(Clone, Copy)]
struct Row {
    first: u16,
    last: u16,
    next: usize,
    run: u8,
}

// What the items in these places come to, of a node in record r; None where one of them can't stand there.
fn read_entries(kind: NodeKind, places: &[u16], r: usize, n: usize, work: &mut [u64]) -> Option<Row>
    requires { (r < 256) × (length places.now ≤ 255) × (length work.old ≡ 265) }
    ensures { (RowSmall r result) × ((S : Restriction) (g : Forest) (ls : List ℕ) → Inside S work.old (suc r) g ls
        → RowSays n S (tree_kind kind) r g ls places.now work.new result) }
{
    let moves = tree_judge::MOVES;
    let mut first = 0;
    let mut last = 0;
    let mut next = r + 1;
    let mut run = start(kind);
    for &v in places {
        let item = read_entry(v, next, n, work)?;
        if item.first <= least(kind, last) {
            return None;
        }
        first = head(first, item.first);
        last = item.first;
        next += item.records;
        run = tree_judge::moved(&moves, run, item.state);
    }
    Some(Row {
        first,
        last,
        next,
        run,
    })
}

// The first leaf so far (0: none, as no leaf is 0), or else b.
fn head(first: u16, b: u16) -> u16
    ensures { result ≡ head first b }
{
    if first == 0 { b } else { first }
}

// Whether all numbers are zero. Joined by `|`, with no test for each, they are read as vectors; `all` takes seven times as long.
fn all_zero(part: &[u16]) -> bool
    ensures { IsTrue result ↔ EachIndex part.now (λ k. slice_index part.now k ≡ 0) }
{
    part.iter().fold(0, |any, x| any | *x) == 0
}

// The number to keep of the node in record r, with the records behind it as they are; None where it is no node's record.
fn read_node(
    r: usize,
    kind: u16,
    count: u16,
    places: &[u16],
    n: usize,
    work: &mut [u64],
) -> Option<u64>
    requires { (r < 256) × (length places.now ≡ 255) × (length work.old ≡ 265) }
    ensures { (S : Restriction) (g : Forest) (ls : List ℕ) → Inside S work.old (suc r) g ls
        → NodeSays n S r kind count places.now g ls work.new result }
{
    let kind = kind_of(kind)?;
    if count < fewest(kind) || count > 255 {
        return None;
    }
    let k = count as usize;
    let row = read_entries(kind, &places[..k], r, n, work)?;
    if row.last <= row.first || !all_zero(&places[k..]) {
        return None;
    }
    let state = u64::from(tree_judge::verdict(row.run));
    Some(u64::from(row.first) + 512 * ((row.next - r) as u64 + 512 * state))
}

// Whether the record is blank.
fn blank(kind: u16, count: u16, places: &[u16]) -> bool
    ensures { IsTrue result ↔ (kind ≡ 0) × (count ≡ 0) × EachIndex places.now (λ k. slice_index places.now k ≡ 0) }
{
    kind == 0 && count == 0 && all_zero(places)
}

// Reads the record r, which is used: it becomes the first root; where it is no node's, this is noted.
fn used_record(r: usize, kind: u16, count: u16, places: &[u16], n: usize, work: &mut [u64])
    requires { (r < 256) × (length places.now ≡ 255) × (length work.old ≡ 265) }
    ensures { (S : Restriction) (g : Forest) (ls : List ℕ) → Inside S work.old (suc r) g ls
        → Finished n S r kind count places.now g ls work.new }
{
    match read_node(r, kind, count, places, n, work) {
        Some(number) => work[8 + r] = number,
        None => work[264] = 257,
    }
}

// Reads the record r, those behind it being read. `places` are its 255 places for items.
pub fn record(r: usize, kind: u16, count: u16, places: &[u16], n: usize, work: &mut [u64])
    requires { (r < 256) × (length places.now ≡ 255) × (length work.old ≡ 265) }
    ensures { (S : Restriction) (table : List ℕ) → row_at table r ≡ kind ∷ count ∷ places.now
        → Swept n S table (suc r) work.old → Swept n S table r work.new }
{
    let used = work[264];
    if used == 257 {
        return;
    }
    if used != 0 {
        used_record(r, kind, count, places, n, work);
        return;
    }
    if blank(kind, count, places) {
        return;
    }
    work[264] = r as u64 + 1;
    used_record(r, kind, count, places, n, work);
}

// Makes work ready for a restriction: its four words of marks, and zeros.
pub fn begin(marks: &[u64], work: &mut [u64])
    requires { (length marks.now ≡ 4) × (length work.old ≡ 265) }
    ensures { (n : ℕ) → Started n (marked marks.now) work.new }
{
    mark_words::clear(work);
    work[..4].copy_from_slice(marks);
}

// Reads the 256 records of a table, from the last to the first; work is ready before, and afterwards has what `at_end` needs, and the state of
// every node.
pub fn sweep(table: &[u16], n: usize, work: &mut [u64])
    requires { (65792 ≤ length table.now) × (length work.old ≡ 265) }
    ensures { (S : Restriction) → Started n S work.old → Swept n S table.now 0 work.new }
{
    for r in (0..256).rev() {
        let at = 257 * r;
        record(
            r,
            table[at],
            table[at + 1],
            &table[at + 2..at + 257],
            n,
            work,
        );
    }
}

// What a table that was swept holds: no tree of n leaves; or one with which the restriction is impossible, or possible.
#[derive(Drop)]
pub enum Verdict {
    NoTree,
    Impossible,
    Possible,
}

// The verdict when all records were read.
pub fn at_end(n: usize, work: &[u64]) -> Verdict
    requires { length work.now ≡ 265 }
    ensures { (S : Restriction) (table : List ℕ) → 1 ≤ n → n ≤ 256 → 65792 ≤ length table → Swept n S table 0 work.now → Told n S table result }
{
    let used = work[264];
    if n <= 2 {
        return if used == 0 {
            Verdict::Possible
        } else {
            Verdict::NoTree
        };
    }
    if used == 0 || used == 257 {
        return Verdict::NoTree;
    }
    if mark_sets::size(work[4], work[5], work[6], work[7]) != n - 1 {
        return Verdict::NoTree;
    }
    let w = work[8];
    if w / 512 % 512 != used {
        return Verdict::NoTree;
    }
    if w / 262144 % 5 == 4 {
        return Verdict::Impossible;
    }
    Verdict::Possible
}

// Whether the table holds a tree of n leaves.
pub fn holds(table: &[u16], n: usize) -> bool
    requires { (1 ≤ n) × (n ≤ 256) × (65792 ≤ length table.now) }
    ensures { result ≡ not (is_none (tree_in n table.now)) }
{
    let marks = [0u64; 4];
    let mut work = [0u64; 265];
    begin(&marks, &mut work);
    sweep(table, n, &mut work);
    !matches!(at_end(n, &work), Verdict::NoTree)
}
