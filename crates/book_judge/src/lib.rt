// A body by itself: the body rule and the field. specs/Reasons.antt says what the answer means.
#![tactic(auto)]

ghost use Rattle.std.specs.Prelude.{◌≡◌};
ghost use Rattle.book_judge.specs.Reasons.{JudgeTells};

use base_answers::Fault;

// What is wrong with a book: the first found.
#[derive(Clone, Copy, PartialEq, Eq)]
pub enum Reason {
    Mark,
    Contents,
    // the entry
    BodyRule(usize),
    // the entry, and the number of what is refused of its field
    Field(usize, u32),
    // the entry, and an earlier one of the same field
    Twice(usize, usize),
}

// What is refused of a book: it is malformed (13), or anything else.
#[derive(Clone, Copy, PartialEq, Eq)]
pub enum BookRefusal {
    Malformed(Reason),
    Other(Fault),
}

impl From<Reason> for BookRefusal {
    ghost use Rattle.book_judge.specs.declared.BookRefusal.TheVariants.{Malformed};

    ghost from_gives = { λ why r. r ≡ Malformed why };

    fn from(why: Reason) -> BookRefusal {
        BookRefusal::Malformed(why)
    }
}

impl From<Fault> for BookRefusal {
    ghost use Rattle.book_judge.specs.declared.BookRefusal.TheVariants.{Other};

    ghost from_gives = { λ k r. r ≡ Other k };

    fn from(k: Fault) -> BookRefusal {
        BookRefusal::Other(k)
    }
}

// A body by itself, as entry i: the body rule, then the field.
pub fn judge(b: &[u8], i: usize) -> Result<(), Reason>
    ensures { JudgeTells b.now i result }
{
    if !book_rule::body_rule(b) {
        return Err(Reason::BodyRule(i));
    }
    book_field::field_refusal(b).map_err(|k| Reason::Field(i, u32::from(k)))
}
