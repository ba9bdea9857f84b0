// The attempt to join a line's group: checks 5 to 8 on a tree in tokens, and the tree with the group joined to it.
#![tactic(auto)]

ghost use Rattle.std.specs.Prelude.{◌≡◌, ◌≤◌, length};
ghost use Rattle.tree_tokens.specs.Tokens.{flat, TreeTokens};
ghost use Rattle.spec_orders.specs.Tree.{Forest};
ghost use Rattle.list_attempt.specs.Attempts.{Attempts};

use spec_calls::Refusal;

// Checks 5 to 8 on a tree and the count of a book in form. Writes the group's four words to marks, and the tree with the group joined to it to
// the start of out. Returns how many tokens it has.
pub fn attempt(
    toks: &[u16],
    n: usize,
    count: usize,
    list: &[u16],
    marks: &mut [u64],
    out: &mut [u16],
) -> Result<usize, Refusal>
    requires { (TreeTokens n toks.now) × (length marks.old ≡ 4) × (512 ≤ length out.old) }
    ensures { (t : Forest) → toks.now ≡ flat t
        → Attempts t n count list.now marks.new out.old out.new result }
{
    table_book::check_list(list, n, marks)?;
    if count == 96 {
        return Err(Refusal::BookFull);
    }
    tree_update::join(toks, marks, n, out).ok_or(Refusal::Impossible)
}
