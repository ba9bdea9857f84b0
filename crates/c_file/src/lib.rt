// The ring file, read, for C and Rust, with the answers as numbers.
#![tactic(auto)]

ghost use Rattle.std.specs.Prelude.{◌≡◌, [], ◌∷◌, ◌≤◌, length};
ghost use Rattle.tree_tokens.specs.Tokens.{Wrote};
ghost use Rattle.file_read.specs.RingFile.{name_in, name_start, group_for, Says};

// Reads a ring file. The value is how many names it has; the names line's bytes and the count of value lines are written too. Refused, with
// 11: the value is the byte, and the other two are 0.
#[unsafe(no_mangle)]
pub extern "C" fn tokuwhape_scan(
    file: &[u8],
    head: &mut usize,
    lines: &mut usize,
    value: &mut usize,
) -> u8
    ensures { Says file.now (result ∷ value.new ∷ head.new ∷ lines.new ∷ []) }
{
    match file_read::scan(file) {
        Ok(found) => {
            *value = found.names;
            *head = found.head;
            *lines = found.lines;
            0
        }
        Err(refusal) => {
            *value = refusal.place();
            *head = 0;
            *lines = 0;
            refusal.number()
        }
    }
}

// Where name number k, from 0, stands, word number k of the first line: returns how many bytes it has, and writes the first one's number. 0 and
// 0 where there is no such word.
#[unsafe(no_mangle)]
pub extern "C" fn tokuwhape_name(file: &[u8], k: usize, start: &mut usize) -> usize
    ensures { (start.new ≡ name_start file.now k) × (result ≡ length (name_in file.now k)) }
{
    let part = file_read::name_at(file, k);
    *start = part.start;
    part.length
}

// Writes the group of value line `line`, from 0, in a file with so many names, at most 256, and a names line of head bytes, to the start of the list:
// its leaves, rising. Returns how many. Nothing is written where there is no such line, or the list has fewer places than there are names.
#[unsafe(no_mangle)]
pub extern "C" fn tokuwhape_group(
    file: &[u8],
    names: usize,
    head: usize,
    line: usize,
    list: &mut [u16],
) -> usize
    ensures wrote { Wrote (group_for (length list.old) file.now names head line) list.old list.new result }
    ensures upper_bound { result ≤ length list.old }
{
    file_read::group_of(file, names, head, line, list)
}
