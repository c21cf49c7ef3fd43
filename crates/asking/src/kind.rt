// The kinds of questions.
ghost use Rattle.std.specs.Prelude.{◌≡◌};
ghost use Rattle.asking.specs.Kinds.{KindOf, kind_number};

use format::Refusal;

// Each with its number.
#[derive(Clone, Copy)]
pub enum Kind {
    Trit = 0,
    Rank = 1,
    Select = 2,
    OperandCount = 3,
    Operand = 4,
    UseCount = 5,
    User = 6,
}

// The number of a kind.
impl From<Kind> for u32 {
    ghost from_gives = { λ k n. n ≡ kind_number k };

    fn from(kind: Kind) -> u32 {
        kind as u32
    }
}

// The kind with a number.
impl TryFrom<u32> for Kind {
    type Error = Refusal;

    ghost try_from_gives = { KindOf };

    fn try_from(number: u32) -> Result<Kind, Refusal> {
        match number {
            0 => Ok(Kind::Trit),
            1 => Ok(Kind::Rank),
            2 => Ok(Kind::Select),
            3 => Ok(Kind::OperandCount),
            4 => Ok(Kind::Operand),
            5 => Ok(Kind::UseCount),
            6 => Ok(Kind::User),
            _ => Err(Refusal::UnknownKind),
        }
    }
}
