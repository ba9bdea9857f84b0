// The row of a node in the node table, written from tokens: the number of its kind, how many items it has, and 255 places for them. A leaf
// stands as its number, the node in record r as 256 + r.
#![tactic(auto)]

ghost use Rattle.std.specs.Prelude.{◌≡◌, ℕ, ◌<◌, ◌≤◌, length, replicate};
ghost use Rattle.spec_calls.specs.NodeTable.{entries};
ghost use Rattle.tree_tokens.specs.Tokens.{Judged, tree, encode, Wrote};
ghost use Rattle.table_row.specs.Rows.{records_from, row, Placed, RowThere};

// Writes for each token the record of the first node from it on, that is how many nodes stand before it; says how many numbers.
pub fn write_records(toks: &[u16], out: &mut [u16]) -> usize
    requires { (length toks.now ≤ 512) × (length toks.now ≤ length out.old) }
    ensures { Wrote (records_from 0 toks.now) out.old out.new result }
{
    let mut next = 0;
    for (i, t) in toks.iter().enumerate() {
        out[i] = next;
        next += *t / 8 % 2;
    }
    toks.len()
}

// Writes the places of the items, and says how many; `records` are the numbers that write_records wrote for these tokens. By index: both go on by
// an item's size.
fn write_entries(toks: &[u16], records: &[u16], out: &mut [u16]) -> usize
    requires { Placed toks.now records.now (length out.old) }
    ensures { (r : ℕ) (j : Judged) → records.now ≡ records_from r toks.now → toks.now ≡ encode j
        → Wrote (entries r (tree j)) out.old out.new result }
{
    let mut k = 0;
    let mut i = 0;
    while i < toks.len() {
        let t = toks[i];
        if t / 8 % 2 == 0 {
            out[k] = t / 16;
            k += 1;
            i += 1;
            continue;
        }
        out[k] = 256 + records[i];
        k += 1;
        i += (t / 32 + 1) as usize;
    }
    k
}

// Writes the row of a node over the row that stands there, and says how many numbers, 257: `kind` is the number of its kind in a node table, `inner`
// are its items, and `records` the numbers that write_records wrote for their tokens.
pub fn write_row(kind: u16, inner: &[u16], records: &[u16], out: &mut [u16]) -> usize
    requires { (Placed inner.now records.now 255) × (RowThere out.old) }
    ensures { (r : ℕ) (i : Judged) → records.now ≡ records_from r inner.now → inner.now ≡ encode i
        → Wrote (row kind (entries r (tree i))) out.old out.new result }
{
    let old = out[1] as usize;
    let m = write_entries(inner, records, &mut out[2..]);
    out[2 + m..2 + m.max(old)].fill(0);
    out[0] = kind;
    out[1] = m as u16;
    257
}
