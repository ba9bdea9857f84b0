// Lists each ring file that index.txt names, a line each, and prints the name and the listing.
#![tactic(auto)]

ghost use Rattle.std.specs.Prelude.{◌≡◌, length};

use std::rt::Files;
use std::{fs, io, str};

// 65,537 zeros: one byte more than the longest file that is accepted.
fn buffer() -> [u8; 65537]
    ensures { 65537 ≡ length result }
{
    [0; 65537]
}

fn main(rt: HostRuntime) -> io::Result<()> {
    let mut index = fs::open(&rt, "index.txt")?;
    let mut bytes = buffer();
    let n = list_print::read(&mut index, &mut bytes)?;
    for line in bytes[..n].split_inclusive(|b| *b == b'\n') {
        list(&rt, line.strip_suffix(b"\n").unwrap_or(line))?;
    }
    Ok(())
}

// Prints the name, and the listing of the file. Fails where the name is no text, or where the file does not open.
fn list(rt: &(impl Files + Print), name: &[u8]) -> io::Result<()> {
    rt.write_all(name)?;
    println!(rt; "")?;
    let Ok(name) = str::from_utf8(name) else {
        return Err(io::Error::from(io::ErrorKind::InvalidInput));
    };
    let mut file = fs::open(rt, name)?;
    let mut bytes = buffer();
    let n = list_print::read(&mut file, &mut bytes)?;
    list_print::print(rt, &bytes[..n])
}
