// What the calls answer. specs/ says, for each call, what it answers and what every lent table holds afterwards.
#![tactic(auto)]

ghost use Rattle.std.specs.Prelude.{◌≡◌};
ghost use Rattle.spec_calls.specs.Refusals.{reply, reported, report};

// Why a call is refused, by the numbers of the table "What a call refuses". A place counts from 0 in the group's list, a byte from 0 in the
// text or file.
#[derive(Clone, Copy)]
pub enum Refusal {
    RingSize,
    ShortTable,
    NotInForm,
    OutsideRing(usize),
    Repeated(usize),
    BookFull,
    Impossible,
    NoSuchGroup,
    NotConsecutive,
    RingFile(usize),
    TreeText(usize),
    BinCounts,
    NoAim,
    RackSize,
    ZeroSeed,
    GroupCount,
}

impl Refusal {
    // The refusal's number in the table: 1 to 17, without 4.
    pub fn number(self) -> u8
        ensures { result ≡ (reported self).number }
    {
        match self {
            Refusal::RingSize => 1,
            Refusal::ShortTable => 2,
            Refusal::NotInForm => 3,
            Refusal::OutsideRing(_) => 5,
            Refusal::Repeated(_) => 6,
            Refusal::BookFull => 7,
            Refusal::Impossible => 8,
            Refusal::NoSuchGroup => 9,
            Refusal::NotConsecutive => 10,
            Refusal::RingFile(_) => 11,
            Refusal::TreeText(_) => 12,
            Refusal::BinCounts => 13,
            Refusal::NoAim => 14,
            Refusal::RackSize => 15,
            Refusal::ZeroSeed => 16,
            Refusal::GroupCount => 17,
        }
    }

    // The place or byte that is returned with the number; 0 where none is.
    pub fn place(self) -> usize
        ensures { result ≡ (reported self).value }
    {
        match self {
            Refusal::OutsideRing(at)
            | Refusal::Repeated(at)
            | Refusal::RingFile(at)
            | Refusal::TreeText(at) => at,
            _ => 0,
        }
    }
}

// 0, or the number of the refusal; writes the value: the call's own number, or the place or byte of the refusal, 0 where none is.
pub fn code(answer: Result<usize, Refusal>, value: &mut usize) -> u8
    ensures { reply result value.new ≡ report answer }
{
    match answer {
        Ok(number) => {
            *value = number;
            0
        }
        Err(refusal) => {
            *value = refusal.place();
            refusal.number()
        }
    }
}
