// The leaves that the conflict call goes by: those of the groups, and one of the others for all of them; and the tree to start from.
#![tactic(auto)]

ghost use Rattle.std.specs.Prelude.{◌≡◌, ℕ, ◌≤◌, length};
ghost use Rattle.spec_orders.specs.Lists.{those_of};
ghost use Rattle.spec_orders.specs.CircularOrder.{others};
ghost use Rattle.spec_orders.specs.Join.{leaf_items};
ghost use Rattle.mark_words.specs.Marks.{marked, words_of, either};
ghost use Rattle.spec_calls.specs.Calls.{group_numbered};
ghost use Rattle.tree_tokens.specs.Tokens.{Wrote, flat};
ghost use Rattle.conflict_leaves.specs.StandIn.{Below, FirstUnmarked, Chosen, start};

// Marks in words, beside its own leaves, those of more, which has as many words.
fn add(words: &mut [u64], more: &[u64])
    requires { length words.old ≡ length more.now }
    ensures { words.new ≡ words_of (length words.old) (either (marked words.old) (marked more.now)) }
{
    for (i, w) in words.iter_mut().enumerate() {
        *w |= more[i];
    }
}

// Marks in words, beside its own leaves, those of every group of the book.
fn add_book(words: &mut [u64], book: &[u64])
    requires { (length words.old ≡ 4) × (384 ≤ length book.now) }
    ensures { (Below (marked words.old) (marked words.new))
        × ((j : ℕ) → 1 ≤ j → j ≤ 96 → Below (group_numbered book.now j) (marked words.new)) }
{
    for k in 0..96 {
        let at = 4 * k;
        let end = at + 4;
        add(words, &book[at..end]);
    }
}

// The first leaf from 1 on that is not marked: n + 1 where all n are.
fn first_unmarked(words: &[u64], n: usize) -> usize
    requires { n ≤ 256 }
    ensures { FirstUnmarked (marked words.now) n result }
{
    for b in 1..n + 1 {
        if !mark_words::test(words, b as u16) {
            return b;
        }
    }
    n + 1
}

// Four words mark the new group. Marks in them the leaves to go by: those of the book's groups too, and the first leaf in none of the groups,
// which stands for all such leaves.
pub fn choose(words: &mut [u64], book: &[u64], n: usize)
    requires { (length words.old ≡ 4) × (384 ≤ length book.now) × (n ≤ 256) }
    ensures { Chosen n (marked words.old) (group_numbered book.now) (marked words.new) }
{
    add_book(words, book);
    let first = first_unmarked(words, n);
    mark_words::set(words, first as u16);
}

// Writes the marked leaves from 2 to n as items, and says how many.
fn leaves(words: &[u64], n: usize, out: &mut [u16]) -> usize
    requires { (n ≤ 256) × (n ≤ length out.old) }
    ensures { Wrote (flat (leaf_items (those_of (marked words.now) (others n)))) out.old out.new result }
{
    let mut k = 0;
    for b in 2..n + 1 {
        if mark_words::test(words, b as u16) {
            out[k] = (16 * b) as u16;
            k += 1;
        }
    }
    k
}

// Writes the tree of leaf 1 and the marked leaves from 2 to n that allows all their orders, and says how many tokens it has.
pub fn start_tree(words: &[u64], n: usize, out: &mut [u16]) -> usize
    requires { (n ≤ 256) × (512 ≤ length out.old) }
    ensures { (result ≤ length out.new)
        × Wrote (flat (start n (marked words.now))) out.old out.new result }
{
    let mut items = [0u16; 256];
    let k = leaves(words, n, &mut items);
    if k < 2 {
        return tree_tokens::copy(&items[0..k], out);
    }
    let r = tree_tokens::copy(&items[0..k], &mut out[1..]);
    out[0] = (32 * k + 8) as u16;
    1 + r
}
