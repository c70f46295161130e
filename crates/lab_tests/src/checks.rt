//! The mode `check`.
use crate::cases::{Case, check, run_cases};
use lab_cli::Status;
use lab_game_texts::{
    CHAIN, DIFFERS, DOUBLING, FORGETS, GOOFSPIEL_2, LOOP, PENNIES_2, dice_text, leduc_text,
    with_line,
};
use std::test::Fail;

#[test]
fn counts_small_games(rt: HostRuntime) -> Result<(), Fail> {
    let remembers = with_line(rt.alloc(), FORGETS, 4, "memory acts")?;
    let dice = dice_text(rt.alloc())?;
    let cases = [
        check(
            CHAIN,
            "game histories 5 nodes 5 sets 4 4 most 0 0 scale 18446744073709551616\n",
            Status::Done,
        ),
        check(
            remembers.as_str(),
            "game histories 5 nodes 3 sets 3 2 most 1 0 scale 1\n",
            Status::Done,
        ),
        check(
            GOOFSPIEL_2,
            "game histories 9 nodes 7 sets 5 5 most 1 1 scale 1\n",
            Status::Done,
        ),
        check(
            dice.as_str(),
            "game histories 125 nodes 32 sets 33 33 most 2 2 scale 4\n",
            Status::Done,
        ),
    ];
    run_cases(&rt, rt.alloc(), cases.as_slice())
}

#[test]
fn counts_leduc_poker(rt: HostRuntime) -> Result<(), Fail> {
    let game = leduc_text(rt.alloc(), 102)?;
    let output = "game histories 2041 nodes 236 sets 289 289 most 4 4 scale 120\n";
    let cases = [check(game.as_str(), output, Status::Done)];
    run_cases(&rt, rt.alloc(), cases.as_slice())
}

#[test]
fn refuses_leduc_poker_on_a_larger_grid(rt: HostRuntime) -> Result<(), Fail> {
    let game = leduc_text(rt.alloc(), 103)?;
    let output = "refused 6687 SizePassed 13 120 4 4\n";
    let cases = [check(game.as_str(), output, Status::Refused)];
    run_cases(&rt, rt.alloc(), cases.as_slice())
}

#[test]
fn refuses_histories(rt: HostRuntime) -> Result<(), Fail> {
    let larger = with_line(rt.alloc(), CHAIN, 26, "end e 2")?;
    let cases = [
        check(
            larger.as_str(),
            "refused 28 SizePassed 2 18446744073709551616 0 0\n",
            Status::Refused,
        ),
        check(LOOP, "refused 12 HorizonPassed a\n", Status::Refused),
        check(
            DOUBLING,
            "refused 13 TooManyHistories 16\n",
            Status::Refused,
        ),
    ];
    run_cases(&rt, rt.alloc(), cases.as_slice())
}

#[test]
fn refuses_recall(rt: HostRuntime) -> Result<(), Fail> {
    let cases = [
        check(DIFFERS, "refused 26 LegalDiffers 1 x y\n", Status::Refused),
        check(FORGETS, "refused 20 Forgotten 1 x x\n", Status::Refused),
    ];
    run_cases(&rt, rt.alloc(), cases.as_slice())
}

#[test]
fn refuses_a_byte_after_the_game(rt: HostRuntime) -> Result<(), Fail> {
    let cases = [
        Case {
            commands: "x",
            ..check(PENNIES_2, "refused 21 ExtraLine\n", Status::Refused)
        },
        Case {
            commands: "x",
            ..check(LOOP, "refused 12 HorizonPassed a\n", Status::Refused)
        },
    ];
    run_cases(&rt, rt.alloc(), cases.as_slice())
}
