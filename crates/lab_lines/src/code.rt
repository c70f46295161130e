//! The codes of refusals.

ghost use Rattle.std.specs.Prelude.{◌≡◌, ◌≤◌, length};
ghost use Rattle.lab_lines.specs.Codes.{code_name};

/// What is wrong with an input.
#[derive(Clone, Copy, Debug, PartialEq, Eq)]
pub enum Code {
    /// The input ends before the line `done`.
    CutShort,
    /// The input ends inside this line.
    NoNewline,
    /// This line passes 1,048,576 bytes.
    LineTooLong,
    /// The lines of the game pass 16,777,216 bytes at this line.
    GameTooLong,
    /// The bytes after the game pass 67,108,864 at this line.
    InputTooLong,
    /// A byte follows a game that is to be alone.
    ExtraLine,
    /// A piece between spaces is empty.
    BadSpace,
    /// A word may not be here.
    BadWord,
    /// A word is no name.
    BadName,
    /// A word is no whole number.
    BadNumber,
    /// A whole number is outside its range.
    OutOfRange,
    /// A name is declared again.
    Twice,
    /// A world or token isn't declared.
    UnknownName,
    /// A row isn't legal, or is there already.
    ExtraRow,
    /// A joint action has no row.
    MissingRow,
    /// The root is an end.
    NoRoot,
    /// The game has more histories than are unfolded.
    TooManyHistories,
    /// The game goes on past its horizon.
    HorizonPassed,
    /// The numbers of the game pass the limit of sizes.
    SizePassed,
    /// The game has no perfect recall: the actions of a seat differ at one of its information sets.
    LegalDiffers,
    /// The game has no perfect recall: a seat forgets what it has seen or done.
    Forgotten,
    /// The command is not built yet.
    NotBuilt,
    /// There is no blueprint yet.
    NoBlueprint,
    /// There is a blueprint already.
    SecondBlueprint,
    /// A seat is neither 1 nor 2.
    BadSeat,
    /// A number of rounds is outside 1 to 4,096.
    BadRounds,
    /// More or fewer weights are given than are needed.
    WrongCount,
    /// The weights at a set don't sum to the grid.
    WrongSum,
}

impl Code {
    /// Its name, as refusals have it.
    pub fn name(self) -> &'static str
        ensures name { result.now ≡ code_name self }
        ensures short { length result.now ≤ 16 }
    {
        match self {
            Code::CutShort => "CutShort",
            Code::NoNewline => "NoNewline",
            Code::LineTooLong => "LineTooLong",
            Code::GameTooLong => "GameTooLong",
            Code::InputTooLong => "InputTooLong",
            Code::ExtraLine => "ExtraLine",
            Code::BadSpace => "BadSpace",
            Code::BadWord => "BadWord",
            Code::BadName => "BadName",
            Code::BadNumber => "BadNumber",
            Code::OutOfRange => "OutOfRange",
            Code::Twice => "Twice",
            Code::UnknownName => "UnknownName",
            Code::ExtraRow => "ExtraRow",
            Code::MissingRow => "MissingRow",
            Code::NoRoot => "NoRoot",
            Code::TooManyHistories => "TooManyHistories",
            Code::HorizonPassed => "HorizonPassed",
            Code::SizePassed => "SizePassed",
            Code::LegalDiffers => "LegalDiffers",
            Code::Forgotten => "Forgotten",
            Code::NotBuilt => "NotBuilt",
            Code::NoBlueprint => "NoBlueprint",
            Code::SecondBlueprint => "SecondBlueprint",
            Code::BadSeat => "BadSeat",
            Code::BadRounds => "BadRounds",
            Code::WrongCount => "WrongCount",
            Code::WrongSum => "WrongSum",
        }
    }
}
