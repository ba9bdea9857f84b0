// Where a scan of the ring file stands, and what one byte more leads to.
#![tactic(auto)]

ghost use Rattle.std.specs.Prelude.{◌≡◌, List, ◌++◌, ℕ, ◌+◌, ◌≤◌, ◌<◌, length, take, get_or, IfSome, IsTrue, ◌↔◌};
ghost use Rattle.file_syntax.specs.RingFile.{Value};
ghost use Rattle.file_syntax.specs.Words.{spaced};
ghost use Rattle.file_syntax.specs.Scanner.{naming, due, got, file_start, file_step, Naming};
ghost use Rattle.file_cursor.specs.Cursors.{CursorStands, Stepped, Advances, CursorWithin};

// What the next byte belongs to: the names line, a value, or the separator after a value.
#[derive(Clone, Copy)]
pub enum Phase {
    Names,
    Due,
    Got,
}

// Where the scanner stands. names: whole names. start: where the begun name starts; after the names line, its length. got: whole values of the
// line. lines: whole value lines.
#[derive(Clone, Copy)]
pub struct Cursor {
    pub phase: Phase,
    pub names: usize,
    pub start: usize,
    pub got: usize,
    pub lines: usize,
}

impl Cursor {
    // The cursor before the first byte.
    pub fn start() -> Cursor
        ensures cursor_within { CursorWithin result 0 }
        ensures stands { CursorStands result file_start }
    {
        Cursor {
            phase: Phase::Names,
            names: 0,
            start: 0,
            got: 0,
            lines: 0,
        }
    }

    // Whether the file may end here: after the names line, with no line of values begun.
    pub fn may_end(self) -> bool
        ensures { IsTrue result ↔ (self.phase ≡ Phase.Due) × (self.got ≡ 0) }
    {
        matches!(self.phase, Phase::Due) && self.got == 0
    }

    // The cursor after byte number `at`. None: no accepted file goes on so.
    pub fn advance(self, file: &[u8], at: usize) -> Option<Cursor>
        requires { (CursorWithin self at) × (at < length file.now) × (length file.now ≤ 65536) }
        ensures cursor_within { IfSome result (λ r. CursorWithin r (at + 1)) }
        ensures advances { Advances file.now at self result }
    {
        // Read ahead of the cases: a scan of many value lines is faster so.
        let b = file[at];
        match self.phase {
            Phase::Names => self.on_name(file, at),
            Phase::Due => self.on_value(b),
            Phase::Got => self.on_got(b),
        }
    }

    // The cursor after byte number `at`, in the names line.
    fn on_name(self, file: &[u8], at: usize) -> Option<Cursor>
        requires { (CursorWithin self at) × (at < length file.now) }
        ensures cursor_within { IfSome result (λ r. CursorWithin r (at + 1)) }
        ensures by_index { (ns : List (List ℕ)) (w : List ℕ) → Naming ns w → take at file.now ≡ spaced ns ++ w → CursorStands self (naming ns w)
            → Stepped result (file_step (naming ns w) (get_or file.now at 0)) }
    {
        let whole = &file[..self.start];
        let begun = &file[self.start..at];
        match file[at] {
            b' ' => (self.names < 255 && file_words::is_new(whole, begun)).then_some(Cursor {
                names: self.names + 1,
                start: at + 1,
                ..self
            }),
            b'\n' => (self.names < 256 && file_words::is_new(whole, begun)).then_some(Cursor {
                phase: Phase::Due,
                names: self.names + 1,
                start: at + 1,
                got: 0,
                lines: 0,
            }),
            b => (file_words::letter(b)
                && file_words::has_room(whole, &file[self.start..at + 1])).then_some(self),
        }
    }

    // The cursor after the byte b, where a value is due.
    fn on_value(self, b: u8) -> Option<Cursor>
        ensures cursor_within { IfSome result (λ r. (r.start ≡ self.start) × (r.names ≡ self.names) × (r.got ≡ self.got) × (r.lines ≡ self.lines)) }
        ensures by_index { (ns : List (List ℕ)) (vss : List (List Value)) (vs : List Value) → CursorStands self (due ns vss vs)
            → Stepped result (file_step (due ns vss vs) b) }
    {
        matches!(b, b'0' | b'1' | b'-').then_some(Cursor {
            phase: Phase::Got,
            ..self
        })
    }

    // The cursor after the byte b, where a value was read.
    fn on_got(self, b: u8) -> Option<Cursor>
        requires { (self.got ≤ 256) × (self.names ≤ 256) × (self.lines < 65536) }
        ensures cursor_within { IfSome result (λ r. (r.start ≡ self.start) × (r.names ≡ self.names) × (r.got ≤ 256) × (r.lines ≤ self.lines + 1)) }
        ensures by_index { (ns : List (List ℕ)) (vss : List (List Value)) (vs : List Value) (v : Value) → CursorStands self (got ns vss vs v)
            → Stepped result (file_step (got ns vss vs v) b) }
    {
        let more = self.got + 1;
        match b {
            b' ' => (more < self.names).then_some(Cursor {
                phase: Phase::Due,
                got: more,
                ..self
            }),
            b'\n' => (more == self.names).then_some(Cursor {
                phase: Phase::Due,
                got: 0,
                lines: self.lines + 1,
                ..self
            }),
            _ => None,
        }
    }
}
