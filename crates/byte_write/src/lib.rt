// Bytes written to the start of a lent slice.
#![tactic(auto)]

ghost use Rattle.std.specs.Prelude.{◌≤◌, length};
ghost use Rattle.spec_orders.specs.TreeText.{digits};
ghost use Rattle.tree_tokens.specs.Tokens.{Wrote};

// Writes the decimal digits of v, without leading zeros, and says how many. By hand: `write!` writes to a `fmt::Write`, and a contract on lent bytes
// would state that it is these.
pub fn write_number(v: usize, out: &mut [u8]) -> usize
    requires { length (digits v) ≤ length out.old }
    ensures { Wrote (digits v) out.old out.new result }
{
    if v < 10 {
        out[0] = (48 + v) as u8;
        return 1;
    }
    let k = write_number(v / 10, out);
    out[k] = (48 + v % 10) as u8;
    k + 1
}
