//! Reads the words of a line, pieces between single spaces, names and whole numbers; and tables of names.
#![tactic(auto)]

mod fault;
mod names;
mod number;
mod word;

pub use fault::LexFault;
pub use names::{NameTable, NoMemory, TableFault, place_of_name};
pub use number::whole;
pub use word::{Pieces, first_word, name, words};

#[cfg(test)]
mod tests {
    use super::*;
    use std::io;
    use std::test::Fail;

    #[test]
    fn reads_a_line(rt: HostRuntime) -> io::Result<()> {
        let Ok(mut pieces) = words(b"deal -12 w/3") else {
            return Err(io::Error::from(io::ErrorKind::InvalidData));
        };
        assert_eq!(rt; pieces.next(), Some(b"deal".as_slice()));
        assert_eq!(rt; pieces.next(), Some(b"-12".as_slice()));
        assert_eq!(rt; pieces.next(), Some(b"w/3".as_slice()));
        assert!(rt; pieces.next().is_none());
        let (word, rest) = first_word(b"deal -12 w/3");
        assert_eq!(rt; word, b"deal".as_slice());
        assert_eq!(rt; rest, Some(b"-12 w/3".as_slice()));
        assert_eq!(rt; name(b"w/3", 3), Ok("w/3"));
        assert_eq!(rt; whole(b"-12", 2, -12, 5), Ok(-12));
        let text = format!(in rt.alloc(); "{}", LexFault::BadSpace { place: 7 })?;
        assert_eq!(rt; text.as_str(), "word 7 is empty");
        Ok(())
    }

    #[test]
    fn numbers_names(rt: HostRuntime) -> Result<(), Fail> {
        let mut table = NameTable::new(rt.alloc())?;
        assert_eq!(rt; table.add("win"), Ok(0));
        assert_eq!(rt; table.add("lose"), Ok(1));
        assert_eq!(rt; table.add("win"), Err(TableFault::Twice { number: 0 }));
        assert_eq!(rt; table.find("lose"), Some(1));
        assert_eq!(rt; table.find("tie"), None);
        assert!(rt; table.count() == 2);
        Ok(())
    }
}
