//! Texts with what reading them gives.
use crate::{TextFault, read_game, write_game};
use lab_lex::LexFault;
use lab_world::AssembleFault;
use std::test::Fail;

// The lines before the first token, lines 1 to 4.
const HEAD: &str = "fosg 1\ngrid 2\nhorizon 1\nmemory acts\n";

// Matching pennies behind its head, its rows in order, lines 5 to 20.
const PENNIES: &str =
    "token -\nworld toss\none a b\ntwo a b\nrow a a\nto 1 win - - -\nrow a b\nto 1 lose - - -\nrow b a\nto 1 lose - - -\nrow b b\nto 1 win - - -\nend win 1\nend lose -1\nroot toss\ndone\n";

// Likewise with its rows in another order.
const TURNED: &str =
    "token -\nworld toss\none a b\ntwo a b\nrow b a\nto 1 lose - - -\nrow b b\nto 1 win - - -\nrow a b\nto 1 lose - - -\nrow a a\nto 1 win - - -\nend win 1\nend lose -1\nroot toss\ndone\n";

fn lex(line: u32, fault: LexFault) -> TextFault {
    TextFault::Lex { line, fault }
}

#[test]
fn refuses_texts(rt: HostRuntime) -> Result<(), Fail> {
    let cases = [
        ("", TextFault::CutShort { line: 1 }),
        ("fosg 1\n", TextFault::CutShort { line: 2 }),
        ("fosg 1", TextFault::NoNewline { line: 1 }),
        ("fosg  1\n", lex(1, LexFault::BadSpace { place: 2 })),
        ("fosg 1 \n", lex(1, LexFault::BadSpace { place: 3 })),
        ("\n", lex(1, LexFault::BadSpace { place: 1 })),
        ("fosg 2\n", TextFault::BadWord { line: 1, place: 2 }),
        ("fosg\n", TextFault::BadWord { line: 1, place: 2 }),
        ("fosg 1 1\n", TextFault::BadWord { line: 1, place: 3 }),
        ("grid 2\n", TextFault::BadWord { line: 1, place: 1 }),
        (
            "fosg 1\ngrid 02\n",
            lex(2, LexFault::BadNumber { place: 2 }),
        ),
        (
            "fosg 1\ngrid 4097\n",
            lex(2, LexFault::OutOfRange { place: 2 }),
        ),
    ];
    for (text, want) in cases {
        let bytes = text.as_bytes();
        assert!(rt; bytes.len() < 1 << 32);
        assert!(rt;
            read_game(rt.alloc(), bytes).err() == Some(want),
            "at {text}"
        );
    }
    Ok(())
}

#[test]
fn refuses_games(rt: HostRuntime) -> Result<(), Fail> {
    let cases = [
        ("token a,b\n", lex(5, LexFault::BadName { place: 2 })),
        ("token -\ntoken -\n", TextFault::Twice { line: 6, place: 2 }),
        (
            "token -\nworld w\none a b c b\n",
            TextFault::Twice { line: 7, place: 5 },
        ),
        (
            "token -\nend w 0\nworld w\n",
            TextFault::Twice { line: 7, place: 2 },
        ),
        (
            "token -\nworld w\none a\ntwo a\nrow a a\nto 1 w - - -\nend w 0\n",
            TextFault::Twice { line: 11, place: 2 },
        ),
        (
            "token -\nworld w\none a\ntwo a\nrow a,b\n",
            TextFault::BadWord { line: 9, place: 3 },
        ),
        (
            "token -\nend e 0\nroot e\ndone\n\n",
            TextFault::ExtraLine { line: 9 },
        ),
        (
            "token -\nend e 0\nroot e\ndone\n",
            TextFault::Assemble(AssembleFault::NoRoot { line: 7 }),
        ),
        (
            "token -\nend e 0\nroot f\ndone\n",
            TextFault::Assemble(AssembleFault::UnknownName { line: 7, place: 2 }),
        ),
        (
            "token -\nworld w\none a\ntwo a\nrow a b\nto 1 w - - -\nroot w\ndone\n",
            TextFault::Assemble(AssembleFault::ExtraRow { line: 9 }),
        ),
        (
            "token -\nworld w\none a\ntwo a b\nrow a b\nto 1 w - - -\nroot w\ndone\n",
            TextFault::Assemble(AssembleFault::MissingRow {
                line: 6,
                first: 0,
                second: 0,
            }),
        ),
    ];
    for (rest, want) in cases {
        let text = format!(in rt.alloc(); "{HEAD}{rest}")?;
        let bytes = text.as_bytes();
        assert!(rt; bytes.len() < 1 << 32);
        assert!(rt;
            read_game(rt.alloc(), bytes).err() == Some(want),
            "at {rest}"
        );
    }
    Ok(())
}

#[test]
fn reads_games(rt: HostRuntime) -> Result<(), Fail> {
    let want = format!(in rt.alloc(); "{HEAD}{PENNIES}")?;
    for rest in [PENNIES, TURNED] {
        let text = format!(in rt.alloc(); "{HEAD}{rest}")?;
        let bytes = text.as_bytes();
        assert!(rt; bytes.len() < 1 << 32);
        let Ok(game) = read_game(rt.alloc(), bytes) else {
            panic!(rt; "no game at {rest}");
        };
        assert_eq!(rt; game.grid, 2);
        let Ok(written) = write_game(rt.alloc(), &game) else {
            panic!(rt; "no memory");
        };
        assert!(rt; written.as_slice() == want.as_bytes(), "at {rest}");
    }
    Ok(())
}
