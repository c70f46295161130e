//! Places with the number of the root.
ghost use Rattle.std.specs.Prelude.{◌≡◌, List, [], map, true, IfOk};
ghost use Rattle.std.specs.List.{list_all};
ghost use Rattle.lab_defs_text.specs.Agreement.{Agrees};
ghost use Rattle.lab_defs_text.specs.Words.{Bytes};
ghost use Rattle.lab_defs_text.specs.Assembly.{is_world_at};
ghost use Rattle.lab_defs_text.specs.Parts.{part_ok};
ghost use Rattle.lab_world.specs.Drafts.{part_place_of, assemble_fault};
ghost use Rattle.lab_world.specs.Sizes.{sizes_ok};
ghost use Rattle.lab_world.specs.Models.{place_model};
ghost use Rattle.lab_world.specs.Stages.{rooted_of, rooted};
ghost use Rattle.lab_world.specs.Made.{AreNumbered};

use super::known::number_in;
use super::made::{made_places, whole_places};
use super::parts::{AssembleFault, PartPlace};
use super::place::Place;
use super::stages::RootedPlaces;
use lab_lex::NameTable;
use std::alloc::Global;

/// The places, where no row of them is at fault and the root, a name in line `line`, is a world.
pub fn rooted_places(
    alloc: Global,
    names: &NameTable,
    tokens: &NameTable,
    places: Vec<PartPlace<&str>>,
    line: u32,
    root: &str,
) -> Result<RootedPlaces, AssembleFault>
    requires fine { list_all part_ok (map (part_place_of []) places.items) ≡ true }
    requires few { sizes_ok (map (part_place_of []) places.items) ≡ true }
    ensures places { Agrees rooted_of assemble_fault result (rooted names.now tokens.now line root.now (map (part_place_of []) places.entry.items)) }
    ensures numbered { IfOk result (λ r. AreNumbered r.numbered (rooted_of r).places) }
{
    let made = made_places(alloc, names, tokens, places)?;
    let root = number_in(names, line, 2, root)?;
    let numbered = whole_places(made)?;
    if !is_world(numbered.places.as_slice(), root) {
        return Err(AssembleFault::NoRoot { line });
    }
    Ok(RootedPlaces { numbered, root })
}

// Whether the place with a number is a world.
fn is_world(places: &[Place], number: u32) -> bool
    ensures { (actions : List Bytes) → result ≡ is_world_at number (map (place_model actions) places.now) }
{
    matches!(places.get(number as usize), Some(Place::World(_)))
}
