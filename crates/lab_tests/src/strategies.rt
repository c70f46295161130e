//! Strategies in the mode `session`: blueprints, bounds, expectations and weights.
use crate::cases::{run_cases, session};
use lab_cli::Status;
use lab_game_texts::{FORK, PENNIES_2, kuhn_text, with_line};
use std::test::Fail;

#[test]
fn bounds_even_splits(rt: HostRuntime) -> Result<(), Fail> {
    let kuhn = kuhn_text(rt.alloc())?;
    let pennies_3 = with_line(rt.alloc(), PENNIES_2, 2, "grid 3")?;
    let cases = [
        session(
            kuhn.as_str(),
            "blueprint uniform\nexpect\nbound 1\nbound 2\nexpect uniform\n",
            "blueprint 5/12 1/2\nexpect 1/8\nbound 1 5/12\nbound 2 1/2\nexpect 1/8\n",
            Status::Done,
        ),
        session(
            pennies_3.as_str(),
            "blueprint uniform\nshow 1\nexpect\n",
            "blueprint 1/3 1/3\nshow 1 2 1\nexpect 1/9\n",
            Status::Done,
        ),
        session(
            FORK,
            "blueprint uniform\nbound 1\nbound 2\nshow 2\n",
            "blueprint 1/1 -1/2\nbound 1 1/1\nbound 2 -1/2\nshow 2 2 1\n",
            Status::Done,
        ),
    ];
    run_cases(&rt, rt.alloc(), cases.as_slice())
}

#[test]
fn bounds_given_weights(rt: HostRuntime) -> Result<(), Fail> {
    let kuhn = kuhn_text(rt.alloc())?;
    let kuhn_3 = with_line(rt.alloc(), kuhn.as_str(), 2, "grid 3")?;
    let cases = [session(
        kuhn_3.as_str(),
        "blueprint given 3 0 3 0 3 0 3 0 2 1 0 3 2 1 3 0 0 3 3 0 2 1 0 3\nexpect\nshow 2\n",
        "blueprint 1/18 -1/18\nexpect -1/18\nshow 2 2 1 3 0 0 3 3 0 2 1 0 3\n",
        Status::Done,
    )];
    run_cases(&rt, rt.alloc(), cases.as_slice())
}

#[test]
fn bounds_solved_strategies(rt: HostRuntime) -> Result<(), Fail> {
    let kuhn = kuhn_text(rt.alloc())?;
    let pennies_3 = with_line(rt.alloc(), PENNIES_2, 2, "grid 3")?;
    let cases = [
        session(
            PENNIES_2,
            "blueprint solve 1\n",
            "blueprint 0/1 0/1\n",
            Status::Done,
        ),
        session(
            pennies_3.as_str(),
            "blueprint solve 2\nshow 1\nshow 2\n",
            "blueprint 1/1 1/3\nshow 1 3 0\nshow 2 1 2\n",
            Status::Done,
        ),
        session(
            pennies_3.as_str(),
            "blueprint solve 3\n",
            "blueprint 1/3 1/3\n",
            Status::Done,
        ),
        session(
            kuhn.as_str(),
            "blueprint solve 64\nexpect\nshow 1\n",
            "blueprint 1/4 1/2\nexpect -1/24\nshow 1 2 0 2 0 1 1 2 0 1 1 1 1\n",
            Status::Done,
        ),
        session(
            PENNIES_2,
            "blueprint solve 4097\n",
            "refused 21 BadRounds\n",
            Status::Refused,
        ),
        session(
            PENNIES_2,
            "blueprint solve 0\n",
            "refused 21 BadRounds\n",
            Status::Refused,
        ),
    ];
    run_cases(&rt, rt.alloc(), cases.as_slice())
}

#[test]
fn refuses_commands_of_strategies(rt: HostRuntime) -> Result<(), Fail> {
    let kuhn = kuhn_text(rt.alloc())?;
    let game = kuhn.as_str();
    let cases = [
        session(
            game,
            "bound 1\n",
            "refused 197 NoBlueprint\n",
            Status::Refused,
        ),
        session(
            game,
            "blueprint uniform\nbound 3\n",
            "blueprint 5/12 1/2\nrefused 198 BadSeat\n",
            Status::Refused,
        ),
        session(
            game,
            "blueprint uniform\nblueprint uniform\n",
            "blueprint 5/12 1/2\nrefused 198 SecondBlueprint\n",
            Status::Refused,
        ),
        session(
            game,
            "blueprint given 1\n",
            "refused 197 WrongCount 24 1\n",
            Status::Refused,
        ),
        session(
            game,
            "blueprint given 1 1 1 1 1 1 1 1 1 1 1 1 1 1 1 1 2 1 1 1 1 1 1 1\n",
            "refused 197 WrongSum 2 6\n",
            Status::Refused,
        ),
        session(
            PENNIES_2,
            "blueprint uniform\nbound 1",
            "blueprint 0/1 0/1\nrefused 22 NoNewline\n",
            Status::Refused,
        ),
    ];
    run_cases(&rt, rt.alloc(), cases.as_slice())
}
