// What every answer is made of. Here a period and a regulator, two kinds of numbers that must never be handed over for each other, and what is
// refused. In specs/ tests (Decides), refusals and their numbers (Faults, Stage), what a book's answer says (Said) and the limits (Limits),
// whose tests stand here.
#![tactic(auto)]

ghost use Rattle.std.specs.Prelude.{◌≡◌};
ghost use Rattle.base_answers.specs.Faults.{fault_number, no_of};
ghost use Rattle.base_answers.specs.Limits.{most, longest, Over, NoSixRows};

// A number of steps.
#[derive(Clone, Copy)]
pub struct Period(pub u64);

// A number of half degrees.
#[derive(Clone, Copy)]
pub struct Regulator(pub u64);

// Period and regulator of a field.
#[derive(Clone, Copy)]
pub struct Cycle {
    pub period: Period,
    pub regulator: Regulator,
}

// What is refused: the fifteen rows of document 01's table, in its numbers.
#[derive(Clone, Copy, PartialEq, Eq)]
pub enum Fault {
    // p is below 5, above 65,535 or not prime
    NotPrime = 1,
    // p leaves 1 by 3
    OneModThree,
    // G or H is no list of coefficients
    BadList,
    // G and H are both constant
    BothConstant,
    // deg G + deg H is over 16
    SumTooLarge,
    // deg G - deg H is no multiple of 3
    NotThirds,
    // G or H has a square factor
    HasSquare,
    // G and H share a factor
    HasCommon,
    // the rows are not the scaled reduced basis of a reduced ideal of the field
    NotBasis,
    // no closing within the budget
    NotClosing,
    // too little room
    NoRoom,
    // a malformed line
    BadLine,
    // a malformed book or body
    BadBook,
    // lengths or a budget out of their rule, or no such entry
    OutOfRule,
    // the field is in the book already
    AlreadyIn,
}

impl From<Fault> for u32 {
    ghost from_gives = { λ k n. n ≡ fault_number k };

    fn from(k: Fault) -> u32 {
        k as u32
    }
}

// The number that is told of a result: 0, or the refusal's.
pub fn number_of(r: Result<(), Fault>) -> u32
    ensures { result ≡ no_of r }
{
    match r {
        Ok(()) => 0,
        Err(k) => u32::from(k),
    }
}

// Whether a budget is over 1,000,000.
pub fn over_budget(n: u64) -> bool
    ensures { Over most n result }
{
    n > 1000000
}

// Whether a length of a series or of a row is over 4,096.
pub fn over_longest(n: usize) -> bool
    ensures { Over longest n result }
{
    n > 4096
}

// Whether n is no length of six equal rows of at most 4,096 numbers.
pub fn no_six_rows(n: usize) -> bool
    ensures { NoSixRows n result }
{
    n % 6 != 0 || n > 24576
}
