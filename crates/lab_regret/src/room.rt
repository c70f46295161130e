//! What is kept, with room for it.

ghost use Rattle.std.specs.Prelude.{◌≡◌, ◌+◌, ◌<◌, ◌≤◌, ◌^◌, ◌++◌, [], ◌∷◌, length, replicate, vec_capacity, IfOk};
ghost use Rattle.lab_form.specs.Forms.{AreSets, actions_in, weight_count};
ghost use Rattle.lab_regret.specs.Played.{KeepsRoom};
ghost use Rattle.lab_regret.specs.Room.{HasRoom, HasPlaces, AreZero, firsts_of};

use super::play::Columns;
use super::reach::weights_of;
use super::regrets::NoMemory;
use lab_form::FormSet;
use lab_units::Worth;
use std::alloc::Global;

/// The sets of a seat: how many actions each has, and the number of its first weight.
#[derive(Drop)]
pub struct Places {
    pub actions: Vec<u32>,
    pub firsts: Vec<u32>,
}

/// No sets, with room for so many.
pub fn places_with_room(alloc: Global, sets: u32) -> Result<Places, NoMemory>
    ensures room { IfOk result (λ p. HasPlaces sets p) }
    ensures actions { IfOk result (λ p. p.actions.items ≡ []) }
    ensures firsts { IfOk result (λ p. p.firsts.items ≡ []) }
{
    let Ok(actions) = Vec::with_capacity(alloc, sets as usize) else {
        return Err(NoMemory);
    };
    let Ok(firsts) = Vec::with_capacity(alloc, sets as usize) else {
        return Err(NoMemory);
    };
    Ok(Places { actions, firsts })
}

/// Columns for no decision, with room for so many.
pub fn columns_with_room(alloc: Global, weights: u32) -> Result<Columns, NoMemory>
    ensures room { IfOk result (λ c. HasRoom weights c) }
{
    let Ok(regrets) = Vec::with_capacity(alloc, weights as usize) else {
        return Err(NoMemory);
    };
    let Ok(sums) = Vec::with_capacity(alloc, weights as usize) else {
        return Err(NoMemory);
    };
    let Ok(held) = Vec::with_capacity(alloc, weights as usize) else {
        return Err(NoMemory);
    };
    let Ok(reach) = Vec::with_capacity(alloc, weights as usize + 1) else {
        return Err(NoMemory);
    };
    let Ok(powers) = Vec::with_capacity(alloc, weights as usize + 1) else {
        return Err(NoMemory);
    };
    let Ok(values) = Vec::with_capacity(alloc, weights as usize + 1) else {
        return Err(NoMemory);
    };
    Ok(Columns {
        regrets,
        sums,
        weights: held,
        reach,
        powers,
        values,
    })
}

/// Writes the sets of a seat.
pub fn write_places(places: &mut Places, sets: &[FormSet])
    requires room { HasPlaces (length sets.now) places.old }
    ensures actions { places.new.actions.items ≡ actions_in sets.now }
    ensures firsts { places.new.firsts.items ≡ firsts_of sets.now }
    ensures room1 { vec_capacity places.old.actions ≤ vec_capacity places.new.actions }
    ensures room2 { vec_capacity places.old.firsts ≤ vec_capacity places.new.firsts }
{
    places.actions.clear();
    places.firsts.clear();
    for i in 0..sets.len() {
        let set = sets[i];
        push(&mut places.actions, set.actions);
        push(&mut places.firsts, set.first_weight);
    }
}

/// How many weights the sets have.
pub fn count_weights(sets: &[FormSet]) -> u32
    requires { weight_count sets.now < 2 ^ 32 }
    ensures { result ≡ weight_count sets.now }
{
    let mut count = 0u32;
    for i in 0..sets.len() {
        count += weights_of(sets[i].actions) as u32;
    }
    count
}

/// Makes all columns zero, for so many decisions.
pub fn clear_columns(columns: &mut Columns, count: u32)
    requires { HasRoom count columns.old }
    ensures zero { AreZero count columns.new }
    ensures room { HasRoom count columns.new }
    ensures keeps { KeepsRoom columns.old columns.new }
{
    refill(&mut columns.regrets, count as usize, Worth(0));
    refill(&mut columns.sums, count as usize, Worth(0));
    refill(&mut columns.weights, count as usize, 0);
    refill(&mut columns.reach, count as usize + 1, 0);
    refill(&mut columns.powers, count as usize + 1, 0);
    refill(&mut columns.values, count as usize + 1, Worth(0));
}

// Makes a vector that has room for them so many equal items.
fn refill<T: Copy + Drop>(items: &mut Vec<T>, count: usize, item: T)
    requires { count ≤ vec_capacity items.old }
    ensures items { items.new.items ≡ replicate count item }
    ensures room { vec_capacity items.old ≤ vec_capacity items.new }
{
    items.clear();
    for _ in 0..count {
        push(items, item);
    }
}

// Puts an item at the end of a vector that has room for it.
fn push<T: Drop>(items: &mut Vec<T>, item: T)
    requires { length items.old.items < vec_capacity items.old }
    ensures items { items.new.items ≡ items.old.items ++ item ∷ [] }
    ensures room { vec_capacity items.old ≤ vec_capacity items.new }
{
    let Ok(()) = items.push(item) else {
        unreachable!();
    };
}
