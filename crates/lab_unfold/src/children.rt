//! The histories that are one step longer than another.

ghost use Rattle.std.specs.Prelude.{◌≤◌, ℕ, length, IfSome, IfNone};
ghost use Rattle.std.specs.List.Sorted.{IsStrictlySortedBy};
ghost use Rattle.lab_unfold.specs.Births.{birth_cmp, IsChild};

use crate::{History, HistoryId, Step};

/// The history with this parent and this last step, if there is one.
pub fn child_among(items: &[History], id: HistoryId, step: Step) -> Option<HistoryId>
    requires order { IsStrictlySortedBy birth_cmp items.now }
    requires few { length items.now ≤ 65536 }
    ensures some { IfSome result (λ k. IsChild items.now id step k.0) }
    ensures none { IfNone result ((k : ℕ) → IsChild items.now id step k → ⊥) }
{
    let key = (Some(id), Some(step));
    match items.binary_search_by_key(&key, |history| (history.parent, history.step)) {
        Ok(number) => Some(HistoryId(number as u32)),
        Err(_) => None,
    }
}
