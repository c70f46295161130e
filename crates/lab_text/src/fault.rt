//! Why bytes are the text of no game.
use lab_lex::{LexFault, NoMemory};
use lab_world::AssembleFault;

/// The first fault of a text. Lines count from 1, and so do the words of a line.
#[derive(Clone, Copy, Debug, PartialEq, Eq)]
pub enum TextFault {
    /// The bytes end before the line `done`.
    CutShort { line: u32 },
    /// The bytes end inside this line.
    NoNewline { line: u32 },
    /// A byte stands behind the line `done`.
    ExtraLine { line: u32 },
    /// A word of this line is wrong in itself.
    Lex { line: u32, fault: LexFault },
    /// A word is not one that may stand here, or is missing, or is one too many.
    BadWord { line: u32, place: u32 },
    /// A name is declared again.
    Twice { line: u32, place: u32 },
    /// Each line may stand where it does, but together they make no game. Want of memory is told by `Memory` alone.
    Assemble(AssembleFault),
    /// No memory was left.
    Memory,
}

impl From<NoMemory> for TextFault {
    ghost use Rattle.std.specs.Prelude.{◌≡◌};
    ghost use Rattle.lab_text.specs.declared.fault.TextFault.TheVariants.{Memory};

    ghost from_gives = { λ _ e. e ≡ Memory };

    fn from(_fault: NoMemory) -> TextFault {
        TextFault::Memory
    }
}

impl From<AssembleFault> for TextFault {
    ghost use Rattle.std.specs.Prelude.{◌≡◌};
    ghost use Rattle.lab_text.specs.Faults.{fault_of_parts};

    ghost from_gives = { λ fault e. e ≡ fault_of_parts fault };

    fn from(fault: AssembleFault) -> TextFault {
        if fault == AssembleFault::Memory {
            return TextFault::Memory;
        }
        TextFault::Assemble(fault)
    }
}
