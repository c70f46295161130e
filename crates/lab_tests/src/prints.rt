//! The mode `print`.
use crate::cases::{Case, print, run_cases};
use lab_cli::Status;
use lab_game_texts::{PENNIES_2, PENNIES_2_EXCHANGED, PENNIES_2_SHORT, with_line};
use std::test::Fail;

#[test]
fn refuses_changed_lines(rt: HostRuntime) -> Result<(), Fail> {
    let changes = [
        (2, "grid 02", "refused 2 BadNumber 2\n"),
        (2, "grid +2", "refused 2 BadNumber 2\n"),
        (2, "grid  2", "refused 2 BadSpace 2\n"),
        (2, "grid 4097", "refused 2 OutOfRange 2\n"),
        (10, "to 1 won - - -", "refused 10 UnknownName 3\n"),
        (11, "row s1 s1", "refused 11 ExtraRow\n"),
        (12, "done", "refused 12 BadWord 1\n"),
        (18, "end win -1", "refused 18 Twice 2\n"),
        (19, "root win", "refused 19 NoRoot\n"),
    ];
    for change in changes {
        let (number, line, output) = change;
        let game = with_line(rt.alloc(), PENNIES_2, number, line)?;
        run_cases(
            &rt,
            rt.alloc(),
            &[print(game.as_str(), output, Status::Refused)],
        )?;
    }
    Ok(())
}

#[test]
fn prints_in_order(rt: HostRuntime) -> Result<(), Fail> {
    let cases = [
        print(PENNIES_2, PENNIES_2, Status::Done),
        print(PENNIES_2_EXCHANGED, PENNIES_2, Status::Done),
    ];
    run_cases(&rt, rt.alloc(), cases.as_slice())
}

#[test]
fn refuses_texts(rt: HostRuntime) -> Result<(), Fail> {
    let missing = print(
        PENNIES_2_SHORT,
        "refused 6 MissingRow s1 s2\n",
        Status::Refused,
    );
    let cases = [
        missing,
        Case {
            commands: "x",
            ..missing
        },
        Case {
            commands: "x\n",
            ..print(PENNIES_2, "refused 21 ExtraLine\n", Status::Refused)
        },
        print(
            PENNIES_2.trim_end(),
            "refused 20 NoNewline\n",
            Status::Refused,
        ),
    ];
    run_cases(&rt, rt.alloc(), cases.as_slice())
}
