//! The lines of replies and refusals, written to a sink through a fixed buffer, without memory.
#![tactic(auto)]

mod code;
mod line_buffer;
mod number;
mod refusal;
mod reply;

pub use code::Code;
pub use number::number_word;
pub use refusal::{Refusal, write_refusal};
pub use reply::{Reply, write_reply};

#[cfg(test)]
mod tests {
    use super::*;
    use lab_io::{Failed, MemSink};
    use std::test::Fail;

    #[test]
    fn names_each_code(rt: HostRuntime) {
        for (code, name) in [
            (Code::CutShort, "CutShort"),
            (Code::NoNewline, "NoNewline"),
            (Code::LineTooLong, "LineTooLong"),
            (Code::GameTooLong, "GameTooLong"),
            (Code::InputTooLong, "InputTooLong"),
            (Code::ExtraLine, "ExtraLine"),
            (Code::BadSpace, "BadSpace"),
            (Code::BadWord, "BadWord"),
            (Code::BadName, "BadName"),
            (Code::BadNumber, "BadNumber"),
            (Code::OutOfRange, "OutOfRange"),
            (Code::Twice, "Twice"),
            (Code::UnknownName, "UnknownName"),
            (Code::ExtraRow, "ExtraRow"),
            (Code::MissingRow, "MissingRow"),
            (Code::NoRoot, "NoRoot"),
            (Code::TooManyHistories, "TooManyHistories"),
            (Code::HorizonPassed, "HorizonPassed"),
            (Code::SizePassed, "SizePassed"),
            (Code::LegalDiffers, "LegalDiffers"),
            (Code::Forgotten, "Forgotten"),
            (Code::NotBuilt, "NotBuilt"),
            (Code::NoBlueprint, "NoBlueprint"),
            (Code::SecondBlueprint, "SecondBlueprint"),
            (Code::BadSeat, "BadSeat"),
            (Code::WrongCount, "WrongCount"),
            (Code::WrongSum, "WrongSum"),
        ] {
            assert_eq!(rt; code.name(), name);
        }
    }

    #[test]
    fn writes_a_refusal(rt: HostRuntime) -> Result<(), Fail> {
        let alloc = rt.alloc();
        let mut sink = MemSink::new(alloc, 64, Vec::new(alloc))?;
        let refusal = Refusal {
            line: 4_294_967_295,
            code: Code::MissingRow,
            rest: b" rock paper",
        };
        write_refusal(&mut sink, &refusal)?;
        let wanted = b"refused 4294967295 MissingRow rock paper\n".as_slice();
        assert_eq!(rt; sink.bytes(), wanted);
        Ok(())
    }

    #[test]
    fn writes_a_line_that_fits_at_once(rt: HostRuntime) -> Result<(), Fail> {
        let alloc = rt.alloc();
        let mut sink = MemSink::new(alloc, 1024, vec![in alloc; 1]?)?;
        let words = vec![in alloc; b'x'; 494]?;
        let refusal = Refusal {
            line: 0,
            code: Code::BadWord,
            rest: &words,
        };
        write_refusal(&mut sink, &refusal)?;
        assert_eq!(rt; sink.bytes().len(), 512);
        Ok(())
    }

    #[test]
    fn writes_a_long_line_whole_or_a_prefix_of_it(rt: HostRuntime) -> Result<(), Fail> {
        let alloc = rt.alloc();
        let words = vec![in alloc; b'x'; 700]?;
        let refusal = Refusal {
            line: 0,
            code: Code::BadWord,
            rest: &words,
        };
        let mut wanted = Vec::from_slice(alloc, b"refused 0 BadWord")?;
        wanted.extend_from_slice(&words)?;
        wanted.push(b'\n')?;
        for (call, result, length) in [
            (0, Err(Failed), 0),
            (1, Err(Failed), 17),
            (2, Err(Failed), 717),
            (3, Ok(()), 718),
        ] {
            let mut sink = MemSink::new(alloc, 1024, vec![in alloc; call]?)?;
            assert_eq!(rt; write_refusal(&mut sink, &refusal), result, "at {call}");
            assert_eq!(rt; sink.bytes().len(), length, "at {call}");
            assert!(rt; wanted.starts_with(sink.bytes()), "at {call}");
        }
        Ok(())
    }
}
