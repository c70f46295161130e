//! Where bounds don't hold: the search for the first action that backs up more than the bound of its set.

ghost use Rattle.std.specs.Prelude.{◌≡◌, ◌⊎◌, ◌<◌, ◌≤◌, ◌+◌, ◌^◌, pos, ◌-ℤ◌, ◌<ℤ◌, ◌≤ℤ◌, length, slice_index, unsigned_abs, All, IfSome, IfNone};
ghost use Rattle.lab_defs_game.specs.Seats.{other};
ghost use Rattle.lab_defs_value.specs.Bounds.{at, through, Holds};
ghost use Rattle.lab_form.specs.Forms.{sets_of};
ghost use Rattle.lab_table.specs.Tables.{seat_actions};
ghost use Rattle.lab_best.specs.Values.{numbers};
ghost use Rattle.lab_bounds.specs.Tables.{bounded_in, AreOf, IsBelow, IsFirstAbove, IsFirstBroken};

use super::bounds::BoundTable;
use lab_form::{Form, SetId, other};
use lab_table::Table;
use lab_units::Worth;

// How many actions of a set are looked at together.
const CHUNK: u32 = 32;

/// An action that backs up more than the bound of its set, and by how much.
#[derive(Clone, Copy, Debug, PartialEq, Eq)]
pub struct Broken {
    pub set: SetId,
    pub action: u32,
    /// What the action backs up less the bound, above 0.
    pub over: Worth,
}

/// The first action, set by set, that backs up more than the bound of its set.
pub fn first_broken(bounds: &BoundTable, form: &Form, d: u32, table: &Table) -> Option<Broken>
    requires { AreOf form.now d table.now bounds.now }
    ensures none { IfNone result (Holds (bounded_in form.now d table.now bounds.now) (at bounds.now.bounds)) }
    ensures some { IfSome result (λ b. IsFirstBroken (bounded_in form.now d table.now bounds.now) (at bounds.now.bounds) b.set.0 b.action b.over.0) }
{
    for i in 0..bounds.len() {
        let set = SetId(i);
        if let Some(found) = broken_at(bounds, form, d, table, set) {
            return Some(Broken {
                set,
                action: found.0,
                over: found.1,
            });
        }
    }
    None
}

// The first action of a set that backs up more than the set's bound, and by how much.
fn broken_at(
    bounds: &BoundTable,
    form: &Form,
    d: u32,
    table: &Table,
    set: SetId,
) -> Option<(u32, Worth)>
    requires of { AreOf form.now d table.now bounds.now }
    requires set { set.0 < length bounds.now.bounds }
    ensures none { IfNone result (IsBelow (through (bounded_in form.now d table.now bounds.now) (at bounds.now.bounds) set.0) (at bounds.now.bounds set.0)
        0 (slice_index (seat_actions form.now (other bounds.now.keeper)) set.0)) }
    ensures some { IfSome result (λ r. IsFirstAbove (through (bounded_in form.now d table.now bounds.now) (at bounds.now.bounds) set.0) (at bounds.now.bounds set.0)
        0 (slice_index (seat_actions form.now (other bounds.now.keeper)) set.0) r.0 r.1.0) }
{
    let actions = actions_at(bounds, form, set);
    let mut from = 0u32;
    while from < actions {
        let count = (actions - from).min(CHUNK);
        if let Some(found) = broken_among(bounds, form, d, table, set, from, count) {
            return Some(found);
        }
        from += count;
    }
    None
}

// The same of a few actions, from one on.
fn broken_among(
    bounds: &BoundTable,
    form: &Form,
    d: u32,
    table: &Table,
    set: SetId,
    from: u32,
    count: u32,
) -> Option<(u32, Worth)>
    requires of { AreOf form.now d table.now bounds.now }
    requires set { set.0 < length bounds.now.bounds }
    requires few { count ≤ 32 }
    requires actions { from + count ≤ slice_index (seat_actions form.now (other bounds.now.keeper)) set.0 }
    ensures none { IfNone result (IsBelow (through (bounded_in form.now d table.now bounds.now) (at bounds.now.bounds) set.0) (at bounds.now.bounds set.0)
        from (from + count)) }
    ensures some { IfSome result (λ r. IsFirstAbove (through (bounded_in form.now d table.now bounds.now) (at bounds.now.bounds) set.0) (at bounds.now.bounds set.0)
        from (from + count) r.0 r.1.0) }
{
    let mut values = [Worth(0); CHUNK as usize];
    let backed = &mut values[..count as usize];
    bounds.write_through(form, d, table, set, from, backed);
    let Some((place, over)) = first_above(backed, bounds.at(set)) else {
        return None;
    };
    Some((from + place, over))
}

// The first worth above a bound, and by how much.
fn first_above(worths: &[Worth], bound: Worth) -> Option<(u32, Worth)>
    requires few { length worths.now ≤ 32 }
    requires sizes { All (λ w. unsigned_abs w.0 ≤ 2 ^ 117) worths.now }
    requires bound { unsigned_abs bound.0 ≤ 2 ^ 100 }
    ensures none { IfNone result (IsBelow (at (numbers worths.now)) bound.0 0 (length worths.now)) }
    ensures some { IfSome result (λ r. IsFirstAbove (at (numbers worths.now)) bound.0 0 (length worths.now) r.0 r.1.0) }
{
    for i in 0..worths.len() {
        if let Some(over) = excess(worths[i], bound) {
            return Some((i as u32, over));
        }
    }
    None
}

// By how much a worth is above a bound, where it is.
fn excess(worth: Worth, bound: Worth) -> Option<Worth>
    requires worth { unsigned_abs worth.0 ≤ 2 ^ 117 }
    requires bound { unsigned_abs bound.0 ≤ 2 ^ 100 }
    ensures none { IfNone result (worth.0 ≤ℤ bound.0) }
    ensures some { IfSome result (λ over. (over.0 ≡ worth.0 -ℤ bound.0) × (pos 0 <ℤ over.0)) }
{
    if worth.0 > bound.0 {
        Some(Worth(worth.0 - bound.0))
    } else {
        None
    }
}

// How many actions the keeper's opponent has at a set.
fn actions_at(bounds: &BoundTable, form: &Form, set: SetId) -> u32
    requires { set.0 < length (sets_of form.now (other bounds.now.keeper)) }
    ensures { result ≡ slice_index (seat_actions form.now (other bounds.now.keeper)) set.0 }
{
    form.sets(other(bounds.keeper()))[set.0 as usize].actions
}
