//! Where the weights of sets stand.

ghost use Rattle.std.specs.Prelude.{◌≡◌, ◌<◌, ◌^◌, IfOk};
ghost use Rattle.lab_defs_value.specs.Tables.{weights_of};
ghost use Rattle.lab_form.specs.Forms.{actions_in, weight_count, AreSets};
ghost use Rattle.lab_table.specs.Places.{places_from};

use lab_form::FormSet;
use std::alloc::{AllocError, Global};

/// How many weights a set with so many actions has: a pass has none.
pub fn weights_of(actions: u32) -> u32
    ensures { result ≡ weights_of actions }
{
    if actions >= 2 { actions } else { 0 }
}

/// How many weights the sets have in all.
pub fn weight_count(sets: &[FormSet]) -> u32
    requires order { AreSets sets.now }
    requires few { weight_count sets.now < 2 ^ 32 }
    ensures { result ≡ weight_count sets.now }
{
    match sets.last() {
        Some(set) => set.first_weight + weights_of(set.actions),
        None => 0,
    }
}

/// The place of the first weight of each set, and of the end.
pub fn places_of(alloc: Global, sets: &[FormSet]) -> Result<Vec<u32>, AllocError>
    requires { weight_count sets.now < 2 ^ 32 }
    ensures { IfOk result (λ v. v.items ≡ places_from 0 (actions_in sets.now)) }
{
    let mut places = Vec::with_capacity(alloc, sets.len() + 1)?;
    let mut place = 0u32;
    for i in 0..sets.len() {
        places.push(place)?;
        place += weights_of(sets[i].actions);
    }
    places.push(place)?;
    Ok(places)
}
