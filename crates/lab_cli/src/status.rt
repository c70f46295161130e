//! How a run ends.
ghost use Rattle.std.specs.Prelude.{◌≡◌};

/// How a run ended.
#[derive(Clone, Copy, Debug, PartialEq, Eq)]
pub enum Status {
    /// The input was read to its end, and the whole report was written.
    Done,
    /// The words name no mode; the usage line was written.
    BadWords,
    /// The report ends with a refusal, which was written last.
    Refused,
    /// No memory was left.
    Memory,
    /// The source failed.
    ReadFault,
    /// The sink failed.
    WriteFault,
}

impl Status {
    ghost use Rattle.lab_cli.specs.Statuses.{number_of};

    /// The exit status of the program, from 0 to 5.
    pub fn exit_status(self) -> u8
        ensures { result ≡ number_of self }
    {
        self as u8
    }
}
