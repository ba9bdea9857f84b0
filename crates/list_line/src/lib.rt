// One line of a ring file's listing, printed to lent bytes.
#![tactic(auto)]

ghost use Rattle.std.specs.Prelude.{◌≡◌, [], ℕ, ◌+◌, ◌≤◌, ◌<◌, length, get_or};
ghost use Rattle.spec_orders.specs.Tree.{Forest};
ghost use Rattle.spec_orders.specs.Form.{standard};
ghost use Rattle.tree_tokens.specs.Tokens.{flat, TreeTokens};
ghost use Rattle.list_bytes.specs.Appends.{Appends};
ghost use Rattle.list_ring.specs.Stands.{lists_of, Stands, SameTables, Line, StandsAt};
ghost use Rattle.list_fields.specs.Ordered.{Ordered};
ghost use Rattle.spec_listing.specs.Listing.{RingState, outcome, next, fields, listing};
ghost use Rattle.list_line.specs.Printing.{group_line, final, ending, Before};

use file_read::RingFile;
use list_bytes::put;
use list_ring::Ring;

// What is listed: an accepted file, and the tree, in tokens, and the order of its ring after all lines.
#[derive(Clone, Copy)]
pub struct Listing<'a> {
    pub file: RingFile<'a>,
    pub tree: &'a [u16],
    pub order: &'a [u16],
    pub ghost last_tree: { tree.now ≡ flat (final file.holds.ns (lists_of file.holds)) },
    pub ghost last_order: { order.now ≡ standard (final file.holds.ns (lists_of file.holds)) },
}

impl<'a> Listing<'a> {
    // Prints line i of the listing without its line end. The ring is the one before the line; a group line joins its group to it. Returns where
    // the line ends.
    pub fn print_line(&self, i: usize, ring: &mut Ring, out: &mut [u8], at: usize) -> usize
        requires { (Before self.now.file.holds i ring.old) × (at + 4096 ≤ length out.old) }
        ensures printed { (result ≤ at + 4095) × (i < self.now.file.lines + 5
            → (Before self.now.file.holds (i + 1) ring.new)
            × (Appends (get_or (listing self.now.file.holds.ns (lists_of self.now.file.holds)) i []) at out.old out.new result)) }
        ensures same_tables { SameTables ring.old ring.new }
    {
        print_line(self.file, self.tree, self.order, i, ring, out, at)
    }
}

// Prints line i of the file's listing without its line end, where these are the tree, in tokens, and the order of its ring after all lines; with
// another tree and order, some line. The ring is the one before the line; a group line joins its group to it. Returns where the line ends.
pub fn print_line(
    file: RingFile,
    tree: &[u16],
    order: &[u16],
    i: usize,
    ring: &mut Ring,
    out: &mut [u8],
    at: usize,
) -> usize
    requires { (Before file.holds i ring.old) × (TreeTokens file.names tree.now) × (Ordered file.names order.now) × (at + 4096 ≤ length out.old) }
    ensures printed { (result ≤ at + 4095)
        × (tree.now ≡ flat (final file.entry.holds.ns (lists_of file.entry.holds))
        → order.now ≡ standard (final file.entry.holds.ns (lists_of file.entry.holds)) → i < file.entry.lines + 5
        → (Before file.entry.holds (i + 1) ring.new)
        × (Appends (get_or (listing file.entry.holds.ns (lists_of file.entry.holds)) i []) at out.old out.new result)) }
    ensures same_tables { SameTables ring.old ring.new }
{
    if i == 0 {
        return put(b"line answer aim conflict", out, at);
    }
    if i <= file.lines {
        return print_group(file, order, i - 1, ring, out, at);
    }
    print_end(file, tree, order, i - file.lines - 1, out, at)
}

// Prints group line l, from 0, without its line end, and joins its group to the ring. Returns where the line ends.
fn print_group(
    file: RingFile,
    order: &[u16],
    l: usize,
    ring: &mut Ring,
    out: &mut [u8],
    at: usize,
) -> usize
    requires { (l < file.lines) × (StandsAt file.holds l ring.old) × (Ordered file.names order.now) × (at + 4096 ≤ length out.old) }
    ensures printed { (result ≤ at + 4095) × (StandsAt file.entry.holds (l + 1) ring.new)
        × (Appends (group_line file.entry.holds.ns order.now (lists_of file.entry.holds) l) at out.old out.new result) }
    ensures same_tables { SameTables ring.old ring.new }
{
    let mut list = [0; 256];
    let k = file.group(l, &mut list);
    let before = ring.count;
    ring.advance(file.names, l + 1, &list[..k]);
    let a = list_bytes::put_number(l + 1, out, at);
    put_ring(file, &list[..k], order, before, ring, out, a)
}

// Appends what follows the number of a group line. The ring had `before` groups, and is now that after the line.
fn put_ring(
    file: RingFile,
    list: &[u16],
    order: &[u16],
    before: usize,
    ring: &Ring,
    out: &mut [u8],
    at: usize,
) -> usize
    requires { (Line file.names list.now) × (Ordered file.names order.now) × (before ≤ 96) × (at + 2048 ≤ length out.old) }
    ensures { (result ≤ at + 2048) × ((s : RingState) (k : ℕ)
        → before ≡ length s.groups
        → Stands file.entry.names (next s k list.now (outcome file.entry.names s list.now)) ring.now
        → Appends (fields file.entry.holds.ns order.now s list.now (outcome file.entry.names s list.now)) at out.old out.new result) }
{
    list_fields::put_fields(
        file, list, order, before, ring.count, ring.book, ring.table, out, at,
    )
}

// Prints line j, from 0, of the four that end the listing, without its line end. Returns where it ends.
fn print_end(
    file: RingFile,
    tree: &[u16],
    order: &[u16],
    j: usize,
    out: &mut [u8],
    at: usize,
) -> usize
    requires { (TreeTokens file.names tree.now) × (Ordered file.names order.now) × (at + 4096 ≤ length out.old) }
    ensures { (result ≤ at + 4095) × ((t : Forest) → tree.now ≡ flat t → order.now ≡ standard t → j < 4
        → Appends (get_or (ending file.entry.holds.ns t) j []) at out.old out.new result) }
{
    match j {
        0 => put(b"order", out, at),
        1 => list_series::put_names(file, order, out, at),
        2 => put(b"tree", out, at),
        _ => list_bytes::put_tree(tree, out, at),
    }
}
