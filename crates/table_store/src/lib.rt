// The node table of a tree, written from its tokens. A record is a row of 257 numbers: the number of its kind, how many items it has, and 255
// places for them; a leaf stands as its number, the node in record r as 256 + r.
#![tactic(auto)]

ghost use Rattle.std.specs.Prelude.{◌≡◌, ℕ, ◌*◌, ◌≤◌, length, replicate};
ghost use Rattle.spec_orders.specs.Tree.{Forest};
ghost use Rattle.spec_calls.specs.Tables.{over};
ghost use Rattle.spec_calls.specs.NodeTable.{rows, table_of, Holds};
ghost use Rattle.tree_tokens.specs.Tokens.{Judged, tree, encode, Wrote, flat, TreeTokens};
ghost use Rattle.table_row.specs.Rows.{Rowed, RowsThere, shape_number};

use tree_tokens::ItemShape;

// The number of a node's kind in its record.
fn kind_number(shape: ItemShape) -> u16
    ensures { result ≡ shape_number shape }
{
    match shape {
        ItemShape::Leaf => 0,
        ItemShape::PNode => 1,
        ItemShape::CNode => 2,
    }
}

// Writes the rows of the nodes in the items over those that stand there, and says how many numbers; `records` are the numbers that write_records
// wrote for these tokens.
fn write_rows(toks: &[u16], records: &[u16], out: &mut [u16]) -> usize
    requires { (Rowed toks.now records.now) × (RowsThere 256 out.old) }
    ensures { (j : Judged) → toks.now ≡ encode j → Wrote (rows 0 (tree j)) out.old out.new result }
{
    let mut k = 0;
    for i in 0..toks.len() {
        let shape = tree_tokens::shape(&toks[i..]);
        if let ItemShape::Leaf = shape {
            continue;
        }
        let inner = tree_tokens::items(&toks[i..]);
        k += table_row::write_row(
            kind_number(shape),
            inner,
            &records[i + 1..i + 1 + inner.len()],
            &mut out[k..],
        );
    }
    k
}

// Makes the first `room` numbers zero, in which stand used rows and then blank ones. By index, since it writes where it reads.
fn erase_rows(room: usize, out: &mut [u16])
    requires { (c : ℕ) × (room ≡ 257 * c) × (RowsThere c out.old) }
    ensures { Wrote (replicate room 0) out.old out.new room }
{
    let mut k = 0;
    while k < room {
        let m = out[k + 1] as usize;
        if m == 0 {
            return;
        }
        out[k..k + 2 + m].fill(0);
        k += 257;
    }
}

// Writes the rows of a tree in form over those that stand there, and says how many numbers.
fn write_tree(toks: &[u16], table: &mut [u16]) -> usize
    requires { ((n : ℕ) × TreeTokens n toks.now) × (RowsThere 256 table.old) }
    ensures { (t : Forest) → toks.now ≡ flat t → Wrote (rows 0 t) table.old table.new result }
{
    let mut records = [0u16; 512];
    let m = table_row::write_records(toks, &mut records);
    write_rows(toks, &records[0..m], table)
}

// Writes the table of a tree in form: its rows, and zeros up to 65,792 numbers. What stands after them stays.
pub fn store(toks: &[u16], table: &mut [u16])
    requires { ((n : ℕ) × TreeTokens n toks.now) × (65792 ≤ length table.old) }
    ensures { (t : Forest) → toks.now ≡ flat t
        → table.new ≡ over (table_of t) table.old }
{
    table[..65792].fill(0);
    let _ = write_tree(toks, table);
}

// Writes the table of the new tree over that of the old one, if it is another tree. What stands after it stays.
pub fn replace(old: &[u16], new: &[u16], table: &mut [u16])
    requires { (n : ℕ) × (t : Forest) × (Holds n table.old t) × (old.now ≡ flat t) × (TreeTokens n new.now) }
    ensures { (t : Forest) → new.now ≡ flat t
        → table.new ≡ over (table_of t) table.old }
{
    if old == new {
        return;
    }
    let k = write_tree(new, table);
    erase_rows(65792 - k, &mut table[k..]);
}
