// The items of one state at the start of a judged sequence. A leaf whose state has the number s is the token 16b + s, so it is passed by one
// test and without its size: the walks of the update are runs of such leaves. So they go by index, which is also what they answer.
#![tactic(auto)]

ghost use Rattle.std.specs.Prelude.{◌≡◌, ◌≤◌, length};
ghost use Rattle.tree_tokens.specs.Tokens.{Judged, encode, Tokens};
ghost use Rattle.tree_spans.specs.Spans.{is, is_not, Parted};

// How many tokens the items of state s at the start have, up to the first item of another state.
pub fn span(toks: &[u16], s: u16) -> usize
    requires { (Tokens toks.now) × (s ≤ 4) }
    ensures { (result ≤ length toks.now)
        × ((j : Judged) → toks.now ≡ encode j → Parted (is s) toks.now j result) }
{
    let mut i = 0;
    while i < toks.len() {
        if toks[i] % 16 == s {
            i += 1;
            continue;
        }
        let y = &toks[i..];
        if tree_tokens::state(y) != s {
            return i;
        }
        i += tree_tokens::size(y);
    }
    i
}

// The state that most items of a sequence have which are not of state s: empty, or full where s is empty.
fn common(s: u16) -> u16
    ensures { (result ≤ 1) × (result ≡ s → ⊥) }
{
    if s == 0 {
        return 1;
    }
    0
}

// How many tokens stand before the first item of state s.
pub fn until(toks: &[u16], s: u16) -> usize
    requires { (Tokens toks.now) × (s ≤ 4) }
    ensures { (result ≤ length toks.now)
        × ((j : Judged) → toks.now ≡ encode j → Parted (is_not s) toks.now j result) }
{
    let other = common(s);
    let mut i = 0;
    while i < toks.len() {
        if toks[i] % 16 == other {
            i += 1;
            continue;
        }
        let y = &toks[i..];
        if tree_tokens::state(y) == s {
            return i;
        }
        i += tree_tokens::size(y);
    }
    i
}
