// Lists the ring file on standard input: prints its listing to standard output.
#![tactic(auto)]

ghost use Rattle.std.specs.Prelude.{◌≡◌, length};

use std::io;

// 65,537 zeros: one byte more than the longest file that is accepted.
fn buffer() -> [u8; 65537]
    ensures { 65537 ≡ length result }
{
    [0; 65537]
}

fn main(rt: HostRuntime) -> io::Result<()> {
    let mut bytes = buffer();
    let n = list_print::read(&mut rt.reader(), &mut bytes)?;
    list_print::print(&rt, &bytes[..n])
}
