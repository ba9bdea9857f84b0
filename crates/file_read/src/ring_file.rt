// An accepted ring file.

ghost use Rattle.std.specs.Prelude.{◌≡◌, [], ◌-◌, ◌≤◌, ◌<◌, length, get_or, MatchResult};
ghost use Rattle.tree_tokens.specs.Tokens.{Wrote};
ghost use Rattle.file_syntax.specs.RingFile.{FileHolds, leaves_on};
ghost use Rattle.file_syntax.proofs.Once.{FileHolds-prop};
ghost use Rattle.file_read.specs.RingFile.{Says, told_of};

use spec_calls::Refusal;

// The bytes of an accepted file: a ring of `names` leaves, a names line of `head` bytes, and `lines` lines of values.
#[derive(Clone, Copy)]
pub struct RingFile<'a> {
    pub bytes: &'a [u8],
    pub names: usize,
    pub head: usize,
    pub lines: usize,
    pub ghost holds: { FileHolds bytes.now names head lines } by { FileHolds-prop bytes.now names head lines },
}

impl<'a> RingFile<'a> {
    // Reads the file through: the file itself, or the byte at which it is refused.
    pub fn open(file: &'a [u8]) -> Result<RingFile<'a>, Refusal>
        ensures { MatchResult result (λ f. f.bytes.now ≡ file.now) (λ why. Says file.now (told_of why)) }
    {
        let found = crate::scan(file)?;
        Ok(RingFile {
            bytes: file,
            names: found.names,
            head: found.head,
            lines: found.lines,
        })
    }

    // The name of a leaf.
    pub fn name(self, leaf: usize) -> &'a [u8]
        requires { (1 ≤ leaf) × (leaf ≤ self.names) }
        ensures { (result.now ≡ get_or self.entry.holds.ns (leaf - 1) []) × (length result.now ≤ 8) }
    {
        crate::name_of(self.bytes, leaf - 1)
    }

    // Writes the group of value line l, from 0, to the start of the list: its leaves, rising. Returns how many.
    pub fn group(self, l: usize, list: &mut [u16]) -> usize
        requires { (l < self.lines) × (self.names ≤ length list.old) }
        ensures { (Wrote (leaves_on (get_or self.entry.holds.vss l [])) list.old list.new result) × (result ≤ length list.old) }
    {
        crate::group_of(self.bytes, self.names, self.head, l, list)
    }
}
