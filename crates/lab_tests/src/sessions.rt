//! The mode `session`, and words that name no mode.
use crate::cases::{Case, run_cases, session};
use lab_cli::Status;
use lab_game_texts::{
    DIFFERS, FORK, LOOP, ONE_BY_THREE, PENNIES_2, PENNIES_2_EXCHANGED, THREE_BY_TWO, kuhn_text,
    with_line,
};
use std::test::Fail;

const USAGE: &str =
    "usage: lab session | check | print | verify | generate KIND SIZE | survey KIND SIZE\n";

#[test]
fn expects_one_step(rt: HostRuntime) -> Result<(), Fail> {
    let pennies_3 = with_line(rt.alloc(), PENNIES_2, 2, "grid 3")?;
    let cases = [
        session(PENNIES_2, "", "", Status::Done),
        session(PENNIES_2, "expect uniform\n", "expect 0/1\n", Status::Done),
        session(
            pennies_3.as_str(),
            "expect uniform\n",
            "expect 1/9\n",
            Status::Done,
        ),
        session(
            PENNIES_2_EXCHANGED,
            "expect uniform\nexpect uniform\n",
            "expect 0/1\nexpect 0/1\n",
            Status::Done,
        ),
        session(
            THREE_BY_TWO,
            "expect uniform\nexpect uniform\n",
            "expect 8388581/25\nexpect 8388581/25\n",
            Status::Done,
        ),
        session(
            ONE_BY_THREE,
            "expect uniform\n",
            "expect -11/7\n",
            Status::Done,
        ),
    ];
    run_cases(&rt, rt.alloc(), cases.as_slice())
}

#[test]
fn expects_several_steps(rt: HostRuntime) -> Result<(), Fail> {
    let kuhn = kuhn_text(rt.alloc())?;
    let cases = [
        session(
            kuhn.as_str(),
            "expect uniform\n",
            "expect 1/8\n",
            Status::Done,
        ),
        session(FORK, "expect uniform\n", "expect -5/6\n", Status::Done),
    ];
    run_cases(&rt, rt.alloc(), cases.as_slice())
}

#[test]
fn refuses_games(rt: HostRuntime) -> Result<(), Fail> {
    let cases = [
        session("", "", "refused 1 CutShort\n", Status::Refused),
        session(
            "fosg 1\ngrid 2\nhorizon 1\nmemory acts\ntoken -\n",
            "",
            "refused 6 CutShort\n",
            Status::Refused,
        ),
        session(
            PENNIES_2.trim_end(),
            "",
            "refused 20 NoNewline\n",
            Status::Refused,
        ),
        session(
            LOOP,
            "expect uniform\n",
            "refused 12 HorizonPassed a\n",
            Status::Refused,
        ),
        session(
            DIFFERS,
            "expect uniform\n",
            "refused 26 LegalDiffers 1 x y\n",
            Status::Refused,
        ),
    ];
    run_cases(&rt, rt.alloc(), cases.as_slice())
}

#[test]
fn refuses_commands(rt: HostRuntime) -> Result<(), Fail> {
    let cases = [
        session(
            PENNIES_2,
            "cert 1\n",
            "refused 21 NotBuilt\n",
            Status::Refused,
        ),
        session(
            PENNIES_2,
            "expect uniform\nexpect uniform",
            "expect 0/1\nrefused 22 NoNewline\n",
            Status::Refused,
        ),
        session(
            PENNIES_2,
            "expect uniform\nexpect  uniform\nexpect uniform\n",
            "expect 0/1\nrefused 22 BadSpace 2\n",
            Status::Refused,
        ),
    ];
    run_cases(&rt, rt.alloc(), cases.as_slice())
}

#[test]
fn reports_faults(rt: HostRuntime) -> Result<(), Fail> {
    let answered = session(
        PENNIES_2,
        "expect uniform\nexpect uniform\n",
        "",
        Status::Done,
    );
    let cases = [
        Case {
            failing_read: Some(0),
            status: Status::ReadFault,
            ..answered
        },
        Case {
            failing_write: Some(0),
            status: Status::WriteFault,
            ..answered
        },
        Case {
            words: "",
            failing_write: Some(0),
            status: Status::WriteFault,
            ..answered
        },
    ];
    run_cases(&rt, rt.alloc(), cases.as_slice())
}

// Each command is answered before more is asked for.
#[test]
fn replies_before_a_fault(rt: HostRuntime) -> Result<(), Fail> {
    let answered = session(
        PENNIES_2,
        "expect uniform\nexpect uniform\n",
        "expect 0/1\nexpect 0/1\n",
        Status::Done,
    );
    let cases = [
        Case {
            failing_read: Some(1),
            status: Status::ReadFault,
            ..answered
        },
        Case {
            commands: "expect uniform\nexpect uni",
            output: "expect 0/1\n",
            failing_read: Some(1),
            status: Status::ReadFault,
            ..answered
        },
        Case {
            output: "expect 0/1\n",
            failing_write: Some(1),
            status: Status::WriteFault,
            ..answered
        },
        Case {
            commands: "expect uniform\nbound x\nexpect uniform\n",
            output: "expect 0/1\nrefused 22 BadNumber 2\n",
            failing_read: Some(1),
            status: Status::Refused,
            ..answered
        },
    ];
    run_cases(&rt, rt.alloc(), cases.as_slice())
}

#[test]
fn refuses_long_commands(rt: HostRuntime) -> Result<(), Fail> {
    let alloc = rt.alloc();
    let longest = format!(in alloc; "{}\n", "x".repeat(alloc, 1_048_576)?)?;
    let longer = format!(in alloc; "x{longest}")?;
    let cases = [
        session(
            PENNIES_2,
            longest.as_str(),
            "refused 21 BadWord 1\n",
            Status::Refused,
        ),
        session(
            PENNIES_2,
            longer.as_str(),
            "refused 21 LineTooLong\n",
            Status::Refused,
        ),
    ];
    run_cases(&rt, alloc, cases.as_slice())
}

#[test]
fn answers_other_words(rt: HostRuntime) -> Result<(), Fail> {
    let unread = Case {
        words: "",
        ..session(PENNIES_2, "expect uniform\n", USAGE, Status::BadWords)
    };
    let cases = [
        unread,
        Case {
            words: "session x",
            ..unread
        },
        Case {
            words: "check x",
            ..unread
        },
        Case {
            failing_read: Some(0),
            ..unread
        },
    ];
    run_cases(&rt, rt.alloc(), cases.as_slice())
}
