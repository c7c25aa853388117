// Why a call is refused: the paper's refusals, in the order of their numbers.
ghost use Rattle.std.specs.Prelude.{◌≡◌};
ghost use Rattle.common.specs.Refusals.{refusal_number};

#[derive(Clone, Copy, Debug, PartialEq, Eq)]
pub enum Refusal {
    SettingOutOfRange = 1,
    NotPossible = 2,
    NoRoom = 3,
    NothingThere = 4,
    Occupied = 5,
    NoEnd = 6,
    TooFewValues = 7,
    BadIdentifier = 8,
    BadRtr = 9,
    BadDlc = 10,
    TooManyValues = 11,
    NoByte = 12,
    BadFormat = 13,
    Damaged = 14,
}

impl Refusal {
    // The paper's number.
    pub fn number(self) -> u32
        ensures { result ≡ refusal_number self }
    {
        self as u32
    }
}
