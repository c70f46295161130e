//! Places made one after another, with the first faults of their rows.
ghost use Rattle.std.specs.Prelude.{◌≡◌, ◌+◌, ◌<◌, ◌≤◌, ◌^◌, length, ◌++◌, ◌∷◌, List, [], map, true, IfOk, IfErr, OnOk};
ghost use Rattle.std.specs.List.{list_all};
ghost use Rattle.lab_defs_text.specs.Agreement.{FaultAgrees};
ghost use Rattle.lab_defs_text.specs.Parts.{part_ok};
ghost use Rattle.lab_defs_text.specs.Steps.{each};
ghost use Rattle.lab_defs_text.specs.Assembly as assembly;
ghost use Rattle.lab_world.specs.Drafts.{part_place_of, assemble_fault};
ghost use Rattle.lab_world.specs.Sizes.{sizes_ok, known_actions, placed_actions};
ghost use Rattle.lab_world.specs.Stages.{
  known_fits,
  known_place_of,
  placed_fits,
  placed_place_of,
};
ghost use Rattle.lab_world.specs.Made.{in_order, AreOrdered, AreMade, MadeOf, WholeOf};

use super::known::known_place;
use super::numbered::add_numbered;
use super::ordered::ordered_place;
use super::parts::{AssembleFault, PartPlace};
use super::placed::placed_place;
use super::stages::{KnownPlace, MadePlaces, NumberedPlaces, PlacedPlace};
use lab_lex::NameTable;
use std::alloc::{AllocError, Global};

/// What the places make, or the first name in them that is not declared.
pub fn made_places(
    alloc: Global,
    names: &NameTable,
    tokens: &NameTable,
    places: Vec<PartPlace<&str>>,
) -> Result<MadePlaces, AssembleFault>
    requires fine { list_all part_ok (map (part_place_of []) places.items) ≡ true }
    requires few { sizes_ok (map (part_place_of []) places.items) ≡ true }
    ensures made { IfOk result (λ m. MadeOf m (each (assembly.known_place names.now tokens.now) (map (part_place_of []) places.entry.items))) }
    ensures fault { IfErr result (λ e. FaultAgrees (assemble_fault e) (each (assembly.known_place names.now tokens.now) (map (part_place_of []) places.entry.items))) }
{
    let mut made = MadePlaces {
        numbered: NumberedPlaces {
            actions: NameTable::new(alloc)?,
            places: Vec::with_capacity(alloc, places.len())?,
        },
        extra: None,
        missing: None,
    };
    for place in places {
        let known = known_place(alloc, names, tokens, place)?;
        add_place(alloc, &mut made, known)?;
    }
    Ok(made)
}

// Adds a place, unless a row of an earlier one is too many.
fn add_place(alloc: Global, made: &mut MadePlaces, place: KnownPlace<'_>) -> Result<(), AllocError>
    requires fits { known_fits (known_place_of place) ≡ true }
    requires few { length made.old.numbered.actions + known_actions (known_place_of place) < 2 ^ 32 }
    ensures made { OnOk result ((ks : List assembly.KnownPlace) → AreMade made.old ks → AreMade made.new (ks ++ known_place_of place.entry ∷ [])) }
    ensures few { OnOk result (length made.new.numbered.actions ≤ length made.old.numbered.actions + known_actions (known_place_of place.entry)) }
{
    if made.extra.is_some() {
        return Ok(());
    }
    match placed_place(alloc, place) {
        Ok(placed) => add_placed(alloc, made, placed),
        Err(AssembleFault::Memory) => Err(AllocError),
        Err(fault) => {
            made.extra = Some(fault);
            Ok(())
        }
    }
}

// Adds a place whose rows have their joint actions, unless an earlier place lacks a row.
fn add_placed(
    alloc: Global,
    made: &mut MadePlaces,
    place: PlacedPlace<'_>,
) -> Result<(), AllocError>
    requires fits { placed_fits place ≡ true }
    requires few { length made.old.numbered.actions + placed_actions (placed_place_of place) < 2 ^ 32 }
    ensures extra { made.new.extra ≡ made.old.extra }
    ensures places { OnOk result ((qs : List assembly.PlacedPlace) → AreOrdered made.old qs → AreOrdered made.new (qs ++ placed_place_of place.entry ∷ [])) }
    ensures few { OnOk result (length made.new.numbered.actions ≤ length made.old.numbered.actions + placed_actions (placed_place_of place.entry)) }
{
    if made.missing.is_some() {
        return Ok(());
    }
    match ordered_place(alloc, place) {
        Ok(ordered) => add_numbered(alloc, &mut made.numbered, ordered),
        Err(AssembleFault::Memory) => Err(AllocError),
        Err(fault) => {
            made.missing = Some(fault);
            Ok(())
        }
    }
}

/// The places, or the first fault of their rows.
pub fn whole_places(made: MadePlaces) -> Result<NumberedPlaces, AssembleFault>
    ensures places { IfOk result (λ n. (ks : List assembly.KnownPlace) → AreMade made ks → WholeOf n ks) }
    ensures fault { IfErr result (λ e. (ks : List assembly.KnownPlace) → AreMade made ks → FaultAgrees (assemble_fault e) (in_order ks)) }
{
    if let Some(fault) = made.extra {
        return Err(fault);
    }
    if let Some(fault) = made.missing {
        return Err(fault);
    }
    Ok(made.numbered)
}
