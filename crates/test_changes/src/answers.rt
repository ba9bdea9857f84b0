// The answer of a line, `= number value` and what the call gave, and the answer of the call.
ghost use Rattle.std.specs.Prelude.{◌≤◌};

use crate::fields;
use spec_calls::Refusal;

// How the two compare: both are done with one value, and what the call gave begins at this place of the line; both are refused with one number
// and place; or they differ. The three cases are neither an option nor a result: only one of the two that agree has a value.
#[derive(Drop)]
pub enum Compared {
    Done(usize),
    Refused,
    Another,
}

// Compares the answer at a place of the line with the one that the call gave.
pub fn compare(line: &[u8], at: usize, got: Result<usize, Refusal>) -> Compared {
    let number = fields::number(line, at.min(line.len()) + 2);
    let value = fields::number(line, number.next);
    match got {
        Ok(said) if number.value == 0 && said == value.value => Compared::Done(value.next),
        Err(why) if why.number() as usize == number.value && why.place() == value.value =>
            Compared::Refused,
        _ => Compared::Another,
    }
}

// The outcome of a call that writes nothing: 1 where it is done as in the file, 2 where it is refused as in the file, 3 where the answer is another.
pub fn outcome(line: &[u8], at: usize, got: Result<usize, Refusal>) -> usize
    ensures { result ≤ 3 }
{
    match compare(line, at, got) {
        Compared::Done(_) => 1,
        Compared::Refused => 2,
        Compared::Another => 3,
    }
}
