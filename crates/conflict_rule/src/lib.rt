// The leaving-out rule over the groups of a book: which of them are needed for an impossibility, none of them needlessly.
#![tactic(auto)]

ghost use Rattle.std.specs.Prelude.{◌≡◌, ℕ, List, ◌+◌, ◌<◌, ◌≤◌, length, take, MatchResult};
ghost use Rattle.spec_orders.specs.declared.Layout.TheVariants.{Ring};
ghost use Rattle.spec_orders.specs.CircularOrder.{Restriction};
ghost use Rattle.spec_orders.specs.Tree.{Forest};
ghost use Rattle.spec_orders.specs.Conflict.{possible?, leave_out, conflict_list};
ghost use Rattle.spec_calls.specs.Calls.{group_numbered};
ghost use Rattle.tree_tokens.specs.Tokens.{Wrote, flat};
ghost use Rattle.conflict_rule.specs.LeavingOut.{InBook, Represents, TokensRepresent, Walked, Stops, goes_on};

// Joins the groups with these numbers to the tree, from the last one on. Writes the tree that comes out, and says how many tokens it has; or how
// many of the numbers are left where the last of them is that of a group that cannot join.
fn walk(
    toks: &[u16],
    book: &[u64],
    n: usize,
    numbers: &[u16],
    out: &mut [u16],
) -> Result<usize, usize>
    requires { (TokensRepresent n (group_numbered book.now) toks.now) × (384 ≤ length book.now) × (InBook numbers.now) × (512 ≤ length out.old) }
    ensures { MatchResult result
        (λ tokens. (tokens ≤ length out.new) × ((t : Forest) (Gs : List Restriction) → toks.now ≡ flat t → Represents n (group_numbered book.now) Gs t
        → Walked n (group_numbered book.now) Gs numbers.now 0 (take tokens out.new)))
        (λ left. (0 < left) × (left ≤ length numbers.now) × ((t : Forest) (Gs : List Restriction) → toks.now ≡ flat t → Represents n (group_numbered book.now) Gs t
        → ((l : List ℕ) × Walked n (group_numbered book.now) Gs numbers.now left l) × Stops n (group_numbered book.now) Gs numbers.now left)) }
{
    let mut m = tree_tokens::copy(toks, out);
    for i in (0..numbers.len()).rev() {
        let at = 4 * (numbers[i] as usize - 1);
        let end = at + 4;
        let mut next = [0u16; 512];
        let got = tree_update::join(&out[0..m], &book[at..end], n, &mut next);
        let Some(k) = got else {
            return Err(i + 1);
        };
        m = tree_tokens::copy(&next[0..k], out);
    }
    Ok(m)
}

// Writes those of the numbers that the leaving-out rule keeps, and says how many. toks is the tree of the groups that stay in any case. The
// first half is decided with the whole second half staying, then the second half with what is kept of the first. Where the second half by
// itself cannot hang together with the tree's groups, the number at which the walk stops is the first one kept.
#[cycle(go_on_halves)]
fn halves(toks: &[u16], book: &[u64], n: usize, numbers: &[u16], out: &mut [u16]) -> usize
    requires { (TokensRepresent n (group_numbered book.now) toks.now) × (384 ≤ length book.now) × (InBook numbers.now) × (length numbers.now ≤ length out.old) }
    ensures { (result ≤ length numbers.now)
        × ((t : Forest) (Gs : List Restriction) → toks.now ≡ flat t → Represents n (group_numbered book.now) Gs t
        → Wrote (leave_out (possible? Ring n) (group_numbered book.now) Gs numbers.now) out.old out.new result) }
{
    let many = numbers.len();
    if many <= 1 {
        return tree_tokens::copy(numbers, out);
    }
    let mid = many / 2;
    let mut tree = [0u16; 512];
    match walk(toks, book, n, &numbers[mid..many], &mut tree) {
        Ok(size) => {
            let k = halves(&tree[0..size], book, n, &numbers[0..mid], out);
            go_on(toks, book, n, k, &numbers[mid..many], out)
        }
        Err(left) => {
            let from = mid + left;
            out[0] = numbers[from - 1];
            go_on(toks, book, n, 1, &numbers[from..many], out)
        }
    }
}

// The first k numbers of out are kept. Writes those that the rule then keeps of the other numbers behind them, and says how many there are in
// all.
#[cycle(go_on_halves)]
fn go_on(toks: &[u16], book: &[u64], n: usize, k: usize, numbers: &[u16], out: &mut [u16]) -> usize
    requires { (TokensRepresent n (group_numbered book.now) toks.now) × (384 ≤ length book.now) × (InBook numbers.now) × (k + length numbers.now ≤ length out.old)
        × (InBook (take k out.old)) }
    ensures { (result ≤ k + length numbers.now)
        × ((t : Forest) (Gs : List Restriction) → toks.now ≡ flat t → Represents n (group_numbered book.now) Gs t
        → Wrote (goes_on (possible? Ring n) (group_numbered book.now) Gs (take k out.old) numbers.now) out.old out.new result) }
{
    let mut tree = [0u16; 512];
    let Ok(size) = walk(toks, book, n, &out[0..k], &mut tree) else {
        return k;
    };
    k + halves(&tree[0..size], book, n, numbers, &mut out[k..])
}

// Writes those of the numbers that the leaving-out rule keeps, and says how many: none where all of their groups can hang together with the
// tree's.
pub fn leave_out(toks: &[u16], book: &[u64], n: usize, numbers: &[u16], out: &mut [u16]) -> usize
    requires { (TokensRepresent n (group_numbered book.now) toks.now) × (384 ≤ length book.now) × (InBook numbers.now) × (length numbers.now ≤ length out.old) }
    ensures { (t : Forest) (Gs : List Restriction) → toks.now ≡ flat t → Represents n (group_numbered book.now) Gs t
        → Wrote (conflict_list (possible? Ring n) (group_numbered book.now) Gs numbers.now) out.old out.new result }
{
    let mut tree = [0u16; 512];
    let Err(left) = walk(toks, book, n, numbers, &mut tree) else {
        return 0;
    };
    out[0] = numbers[left - 1];
    go_on(toks, book, n, 1, &numbers[left..numbers.len()], out)
}
