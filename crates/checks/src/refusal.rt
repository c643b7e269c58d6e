// The refusal table: what is refused, and which refusal wins.
ghost use Rattle.checks.specs.Table.{GivesNumber};

// A refusal, with its number in the table. Where several hold, the one of the smallest number wins.
#[derive(Clone, Copy, Debug, PartialEq, Eq, PartialOrd, Ord)]
pub enum Refusal {
    Header = 1,
    Length = 2,
    Pad = 3,
    List = 4,
    Count = 5,
    Range = 6,
    Form = 7,
    Unbounded = 8,
    Large = 9,
    Room = 10,
}

// Its number, as C gets it.
impl From<Refusal> for u64 {
    ghost from_gives = { GivesNumber };

    fn from(refusal: Refusal) -> u64 {
        refusal as u64
    }
}
