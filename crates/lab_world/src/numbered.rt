//! Names of actions to numbers.
ghost use Rattle.std.specs.Prelude.{◌≡◌, ◌+◌, ◌∷◌, ◌++◌, ◌<◌, ◌≤◌, ◌^◌, List, [], length, map, nat_lt, true, IfOk, OnOk};
ghost use Rattle.std.specs.List.{list_all};
ghost use Rattle.lab_defs_text.specs.Games as model;
ghost use Rattle.lab_defs_text.specs.Texts.{name_of};
ghost use Rattle.lab_lex.specs.Names.{name_bytes};
ghost use Rattle.lab_world.specs.Models.{action_list, row_model, world_model, place_model};
ghost use Rattle.lab_world.specs.Wholes.{with_new, all_action_names, place_fits};
ghost use Rattle.lab_world.specs.Sizes.{model_actions};
ghost use Rattle.lab_world.specs.Stages.{ordered_place_of, total_fits, totals_fit};
ghost use Rattle.lab_world.specs.Made.{AreNumbered};
ghost use Rattle.lab_world.specs.declared.place.Place.TheVariants as place;

use super::place::{ActionId, Place, Row, World};
use super::stages::{NumberedPlaces, OrderedPlace};
use lab_lex::{NameTable, TableFault};
use lab_seq::{Few, Seq};
use std::alloc::{AllocError, Global};

/// Adds a place, whose actions get the next numbers where their names are new.
pub fn add_numbered(
    alloc: Global,
    found: &mut NumberedPlaces,
    place: OrderedPlace<'_>,
) -> Result<(), AllocError>
    requires totals { totals_fit place ≡ true }
    requires few { length found.old.actions + model_actions (ordered_place_of place) < 2 ^ 32 }
    ensures numbered { OnOk result ((ms : List model.Place) → AreNumbered found.old ms → AreNumbered found.new (ms ++ ordered_place_of place.entry ∷ [])) }
    ensures few { OnOk result (length found.new.actions ≤ length found.old.actions + model_actions (ordered_place_of place.entry)) }
{
    let place = numbered_place(alloc, &mut found.actions, place)?;
    found.places.push(place)?;
    Ok(())
}

// A place with its actions by numbers.
fn numbered_place(
    alloc: Global,
    actions: &mut NameTable,
    place: OrderedPlace<'_>,
) -> Result<Place, AllocError>
    requires totals { totals_fit place ≡ true }
    requires few { length actions.old + model_actions (ordered_place_of place) < 2 ^ 32 }
    ensures place { IfOk result (λ p. place_model actions.new p ≡ ordered_place_of place.entry) }
    ensures actions { OnOk result (actions.new ≡ all_action_names actions.old (ordered_place_of place.entry ∷ [])) }
    ensures fits { IfOk result (λ p. place_fits (length actions.new) p ≡ true) }
{
    match place {
        OrderedPlace::World { one, two, rows } => {
            let world = numbered_world(alloc, actions, one.as_slice(), two.as_slice(), rows)?;
            Ok(Place::World(world))
        }
        OrderedPlace::End(payoff) => Ok(Place::End(payoff)),
    }
}

// A world with its actions by numbers.
fn numbered_world(
    alloc: Global,
    actions: &mut NameTable,
    one: &[&str],
    two: &[&str],
    rows: Seq<Row>,
) -> Result<World, AllocError>
    requires totals { list_all total_fits rows ≡ true }
    requires few { length actions.old + (length one.now + length two.now) < 2 ^ 32 }
    ensures world { IfOk result (λ w. world_model actions.new w ≡ record { one = map name_bytes one.now; two = map name_bytes two.now; rows = map row_model rows }) }
    ensures actions { OnOk result (actions.new ≡ with_new (with_new actions.old (map name_bytes one.now)) (map name_bytes two.now)) }
    ensures fits { IfOk result (λ w. place_fits (length actions.new) (place.World w) ≡ true) }
{
    let one = action_ids(alloc, actions, one)?;
    let two = action_ids(alloc, actions, two)?;
    Ok(World { one, two, rows })
}

// The numbers of the names of actions, which are added to the table where they are new. One by itself takes no memory.
fn action_ids(
    alloc: Global,
    actions: &mut NameTable,
    names: &[&str],
) -> Result<Few<ActionId>, AllocError>
    requires { length actions.old + length names.now < 2 ^ 32 }
    ensures table { OnOk result (actions.new ≡ with_new actions.old (map name_bytes names.now)) }
    ensures ids { IfOk result (λ ids. action_list actions.new ids ≡ map name_bytes names.now) }
    ensures below { IfOk result (λ ids. list_all (λ (i : ActionId). nat_lt i.0 (length actions.new)) ids ≡ true) }
{
    if let [name] = names {
        return Ok(Few::one(action_id(actions, name)?));
    }
    Ok(Few::from_vec(id_list(alloc, actions, names)?))
}

// Likewise, in a vector.
fn id_list(
    alloc: Global,
    actions: &mut NameTable,
    names: &[&str],
) -> Result<Vec<ActionId>, AllocError>
    requires { length actions.old + length names.now < 2 ^ 32 }
    ensures table { OnOk result (actions.new ≡ with_new actions.old (map name_bytes names.now)) }
    ensures ids { IfOk result (λ ids. action_list actions.new ids.items ≡ map name_bytes names.now) }
    ensures below { IfOk result (λ ids. list_all (λ (i : ActionId). nat_lt i.0 (length actions.new)) ids.items ≡ true) }
{
    let mut ids = Vec::with_capacity(alloc, names.len())?;
    for i in 0..names.len() {
        let name = names[i];
        ids.push(action_id(actions, name)?)?;
    }
    Ok(ids)
}

// The number of a name, which is added where it is new.
fn action_id(actions: &mut NameTable, name: &str) -> Result<ActionId, AllocError>
    requires { length actions.old + 1 < 2 ^ 32 }
    ensures table { OnOk result (actions.new ≡ with_new actions.old (name.now ∷ [])) }
    ensures id { IfOk result (λ i. name_of actions.new i.0 ≡ name.now) }
    ensures below { IfOk result (λ i. i.0 < length actions.new) }
{
    match actions.add(name) {
        Ok(number) => Ok(ActionId(number)),
        Err(TableFault::Twice { number }) => Ok(ActionId(number)),
        Err(TableFault::Memory) => Err(AllocError),
    }
}
