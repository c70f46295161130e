//! Weights that are as even as the grid allows.

ghost use Rattle.std.specs.Prelude.{◌≡◌, ◌≤◌, [], ◌∷◌, ◌++◌, pos, replicate, OnOk, IfOk};
ghost use Rattle.lab_defs_value.specs.Rounding.{even_part, rounded};
ghost use Rattle.lab_defs_value.specs.Tables.{uniform_table};
ghost use Rattle.lab_form.specs.Forms.{actions_in};

use lab_form::FormSet;
use std::alloc::{AllocError, Global};

/// The weights at the deciding sets, each as even as the grid allows.
pub fn uniform_weights(alloc: Global, sets: &[FormSet], d: u32) -> Result<Vec<u32>, AllocError>
    requires { d ≤ 4096 }
    ensures { IfOk result (λ v. v.items ≡ uniform_table d (actions_in sets.now)) }
{
    let mut weights = Vec::new(alloc);
    for i in 0..sets.len() {
        push_set(&mut weights, d, sets[i].actions)?;
    }
    Ok(weights)
}

// Appends the weights of a set: none at a pass.
fn push_set(weights: &mut Vec<u32>, d: u32, actions: u32) -> Result<(), AllocError>
    requires { d ≤ 4096 }
    ensures { OnOk result (weights.new.items ≡ weights.old.items ++ uniform_table d (actions ∷ [])) }
{
    if actions >= 2 {
        push_even(weights, d, actions)
    } else {
        Ok(())
    }
}

// Appends the roundings of so many zeros.
fn push_even(weights: &mut Vec<u32>, d: u32, actions: u32) -> Result<(), AllocError>
    requires some { 1 ≤ actions }
    requires grid { d ≤ 4096 }
    ensures { OnOk result (weights.new.items ≡ weights.old.items ++ rounded d (replicate actions (pos 0))) }
{
    for action in 0..actions {
        weights.push(even_part(d, actions, action))?;
    }
    Ok(())
}

// One of so many even parts of the grid.
fn even_part(d: u32, parts: u32, place: u32) -> u32
    requires some { 1 ≤ parts }
    requires grid { d ≤ 4096 }
    ensures { result ≡ even_part d parts place }
{
    let unit = if place < d % parts { 1 } else { 0 };
    d / parts + unit
}
