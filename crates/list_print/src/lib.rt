// A ring file is read, and its listing is printed to standard output.
#![tactic(auto)]

ghost use Rattle.std.specs.Io.{ReadsAtMost};

use std::io;
use std::io::Read;

// Reads to the start of the table, until it is full or the input ends, and answers how many bytes. Fails where a read fails: then the start of the
// table may hold what was read before. Each round goes on by as many bytes as came.
pub fn read(source: &mut impl Read, table: &mut [u8]) -> io::Result<usize>
    ensures { ReadsAtMost result table.new }
{
    let mut done = 0;
    while done < table.len() {
        let n = source.read(&mut table[done..])?;
        if n == 0 {
            break;
        }
        done += n;
    }
    Ok(done)
}

// Prints the listing part by part, until a part is empty. Each part has a line, and there are fewer than 40,000. Fails where a write fails: then
// what was printed is the beginning of the listing.
pub fn print(rt: &impl Print, file: &[u8]) -> io::Result<()> {
    let mut out = [0; 65536];
    let mut from = 0;
    for _ in 0..40000 {
        let piece = list_part::part(file, from, &mut out);
        if piece.next == from {
            break;
        }
        rt.write_all(&out[..piece.bytes])?;
        from = piece.next;
    }
    Ok(())
}
