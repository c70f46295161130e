//! Games assembled of parts that are made in code.
ghost use Rattle.std.specs.Prelude.{◌≡◌, ◌++◌, ◌∷◌, [], length, IfOk, string_bytes};
ghost use Rattle.lab_defs_text.specs.Words.{Bytes};
ghost use Rattle.lab_world.specs.Drafts.{draft_of, part_outcome_by, part_row_by, part_place_by, part_places_by};
ghost use Rattle.lab_game_tests.specs.Tosses.{win_outcome, win_row, toss_world, toss_of};
ghost use lib.Chars.{codes};

use lab_lex::NameTable;
use lab_seq::{Few, Seq};
use lab_text::write_game;
use lab_world::{AssembleFault, Game, PartOutcome, PartPlace, PartRow, Parts, Recall};
use std::alloc::Global;
use std::test::Fail;

const TOSS: &str = "\
fosg 1
grid 3
horizon 1
memory acts
token -
world toss
one s
two s
row s s
to 1 win - - -
end win 1
root toss
done
";

// A name that is owned.
fn owned(alloc: Global, name: &str) -> Result<String, Fail>
    ensures { IfOk result (λ s. string_bytes s ≡ name.now) }
{
    Ok(String::from_str(alloc, name)?)
}

// A table of one name.
fn one_name(alloc: Global, name: &str) -> Result<NameTable, Fail>
    ensures { IfOk result (λ t. t ≡ name.now ∷ []) }
{
    let mut table = NameTable::new(alloc)?;
    table.add(name)?;
    Ok(table)
}

// A table of two names.
fn two_names(alloc: Global, first: &str, second: &str) -> Result<NameTable, Fail>
    ensures { IfOk result (λ t. t ≡ first.now ∷ second.now ∷ []) }
{
    let mut table = one_name(alloc, first)?;
    table.add(second)?;
    Ok(table)
}

// An outcome that leads to the end.
fn outcome(alloc: Global) -> Result<PartOutcome, Fail>
    ensures { IfOk result (λ o. part_outcome_by string_bytes o ≡ win_outcome) }
{
    Ok(PartOutcome {
        line: 10,
        weight: 1,
        next: owned(alloc, "win")?,
        own1: owned(alloc, "-")?,
        own2: owned(alloc, "-")?,
        public: owned(alloc, "-")?,
    })
}

// The row of the one joint action.
fn row(alloc: Global) -> Result<PartRow, Fail>
    ensures { IfOk result (λ r. part_row_by string_bytes r ≡ win_row) }
{
    Ok(PartRow {
        line: 9,
        first: owned(alloc, "s")?,
        second: owned(alloc, "s")?,
        outcomes: Few::one(outcome(alloc)?),
    })
}

// A list of one item.
fn listed<T: Drop>(alloc: Global, item: T) -> Result<Vec<T>, Fail>
    ensures { IfOk result (λ v. v.items ≡ item ∷ []) }
{
    let mut items = Vec::new(alloc);
    items.push(item)?;
    Ok(items)
}

// The world, without its name.
fn world(alloc: Global) -> Result<PartPlace, Fail>
    ensures { IfOk result (λ w. (name : Bytes) → part_place_by string_bytes name w ≡ toss_world name) }
{
    Ok(PartPlace::World {
        line: 6,
        one: Few::one(owned(alloc, "s")?),
        two: Few::one(owned(alloc, "s")?),
        rows: Seq::from_vec(listed(alloc, row(alloc)?)?),
    })
}

// The world and its end, without their names.
fn places(alloc: Global) -> Result<Vec<PartPlace>, Fail>
    ensures places { IfOk result (λ v. part_places_by string_bytes (codes "toss" ∷ codes "win" ∷ []) v.items ≡ (toss_of []).places) }
    ensures count { IfOk result (λ v. length v.items ≡ 2) }
{
    let mut places = listed(alloc, world(alloc)?)?;
    places.push(PartPlace::End {
        line: 11,
        payoff: 1,
    })?;
    Ok(places)
}

// The parts of a toss whose root is the place with this name.
fn parts(alloc: Global, root: &str) -> Result<Parts, Fail>
    ensures draft { IfOk result (λ p. draft_of p ≡ toss_of root.now) }
    ensures named { IfOk result (λ p. length p.names ≡ length p.places) }
{
    Ok(Parts {
        grid: 3,
        horizon: 1,
        recall: Recall::Acts,
        tokens: one_name(alloc, "-")?,
        names: two_names(alloc, "toss", "win")?,
        places: Seq::from_vec(places(alloc)?),
        root: owned(alloc, root)?,
        root_line: 12,
    })
}

// The game of these parts.
fn toss(alloc: Global, root: &str) -> Result<Result<Game, AssembleFault>, Fail> {
    let parts = parts(alloc, root)?;
    Ok(Game::assemble(alloc, parts))
}

#[test]
fn assembles_a_game(rt: HostRuntime) -> Result<(), Fail> {
    let game = toss(rt.alloc(), "toss")??;
    let text = write_game(rt.alloc(), &game)?;
    assert_eq!(rt; text.as_slice(), TOSS.as_bytes());
    Ok(())
}

#[test]
fn refuses_an_end_as_the_root(rt: HostRuntime) -> Result<(), Fail> {
    let fault = toss(rt.alloc(), "win")?.err();
    assert_eq!(rt; fault, Some(AssembleFault::NoRoot { line: 12 }));
    Ok(())
}

#[test]
fn refuses_a_root_that_is_not_declared(rt: HostRuntime) -> Result<(), Fail> {
    let fault = toss(rt.alloc(), "lost")?.err();
    assert_eq!(rt;
        fault,
        Some(AssembleFault::UnknownName { line: 12, place: 2 })
    );
    Ok(())
}
