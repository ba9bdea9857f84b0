// The numbers of a tree text: which unused leaf its digits name.
#![tactic(auto)]

ghost use Rattle.std.specs.Prelude.{◌≡◌, true, ◌↔◌, ◌+◌, ◌≤◌, length};
ghost use Rattle.text_scanner.specs.Scan.{sep?};
ghost use Rattle.text_scanner.specs.Unused.{any_start};
ghost use Rattle.text_number.specs.Numbers.{FreeIn, NumberRead};

// Whether one of the k leaves from `from` on is unused.
fn unused_among(used: &[u8], from: usize, k: usize) -> bool
    ensures { (result ≡ true) ↔ FreeIn used.now from (from + k) }
{
    let n = used.len();
    if from > n {
        return false;
    }
    let marks = &used[from..];
    marks[..k.min(n - from)].contains(&0)
}

// Whether the digits of some unused leaf begin with those of v: v itself, or v with one or two digits more.
#[tactic(auto, using(crate::proofs::Starting::free_leaves))]
pub fn any_start(used: &[u8], v: usize) -> bool
    ensures { result ≡ any_start v 0 used.now }
{
    let n = used.len();
    unused_among(used, v, 1)
        || (v <= n / 10 && unused_among(used, 10 * v, 10))
        || (v <= n / 100 && unused_among(used, 100 * v, 100))
}

// A number that was read: the unused leaf with these digits, and the byte after them.
#[derive(Clone, Copy)]
pub struct Numeral {
    pub leaf: usize,
    pub at: usize,
}

// Reads on, at byte `at`, in a number whose digits so far are those of v; or answers the byte of the refusal.
pub fn number(text: &[u8], at: usize, v: usize, used: &[u8]) -> Result<Numeral, usize>
    requires { (at ≤ length text.now) × (1 ≤ v) × (length used.now ≤ 257) × (any_start v 0 used.now ≡ true) }
    ensures { NumberRead text.now at v used.now result }
{
    let mut leaf = v;
    for to in at..text.len() {
        match text[to] {
            b' ' | b')' if used[leaf] == 0 => return Ok(Numeral { leaf, at: to }),
            digit @ b'0'..=b'9' => {
                let next = 10 * leaf + (digit - b'0') as usize;
                if !any_start(used, next) {
                    return Err(to);
                }
                leaf = next;
            }
            _ => return Err(to),
        }
    }
    Err(text.len())
}
