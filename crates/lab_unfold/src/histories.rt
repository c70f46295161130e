//! The histories of a game, with the chance, the payoff and the first histories of each, and the scale.

ghost use Rattle.std.specs.Prelude.{
  ◌≡◌,
  ◌⊎◌,
  ◌<◌,
  ◌≤◌,
  ◌==◌,
  ℕ,
  pos,
  [],
  length,
  slice_get,
  slice_index,
  slice_index_or,
  if◌then◌else◌,
  Some,
  IfSome,
  IfNone,
};
ghost use Rattle.std.specs.List.Sorted.{IsStrictlySortedBy};
ghost use Rattle.lab_unfold.specs.Births.{birth_cmp, TellLonger};
ghost use Rattle.lab_unfold.specs.Values.{all_steps, IsLonger};

use super::children::child_among;
use super::seen::FirstHistories;
use crate::{History, HistoryId, Scale, Step};
use std::marker::Model;

/// The histories of a game, numbered from 0 by length, and then lexicographically by their steps.
#[derive(Drop)]
pub struct Histories {
    items: Vec<History>,
    chances: Vec<u128>,
    payoffs: Vec<i32>,
    firsts: FirstHistories,
    scale: Scale,
}

impl Model for Histories {
    ghost use Rattle.std.specs.Prelude.{◌≡◌, ◌≤◌, [], length};
    ghost use Rattle.std.specs.List.Sorted.{IsStrictlySortedBy};
    ghost use Rattle.lab_unfold.specs.Births.{birth_cmp, TellLonger};
    ghost use Rattle.lab_unfold.specs.Values.{Unfolded, all_steps};

    ghost Value = { Unfolded };

    ghost view = { λ h. record { histories = all_steps [] h.items.items; items = h.items.items; chances = h.chances.items; payoffs = h.payoffs.items; node_firsts = h.firsts.nodes.items; set_firsts1 = h.firsts.sets1.items; set_firsts2 = h.firsts.sets2.items; scale = h.scale } };

    ghost invariant = { λ h. (length h.items.items ≤ 65536) × (length h.chances.items ≡ length h.items.items) × (length h.payoffs.items ≡ length h.items.items) × IsStrictlySortedBy birth_cmp h.items.items × TellLonger h.items.items };
}

impl Histories {
    /// Histories in the order of their parents and last steps, a chance and a payoff for each, their first ones, and the scale.
    pub(crate) fn new(
        items: Vec<History>,
        chances: Vec<u128>,
        payoffs: Vec<i32>,
        firsts: FirstHistories,
        scale: Scale,
    ) -> Self
        requires few { length items.items ≤ 65536 }
        requires chances { length chances.items ≡ length items.items }
        requires payoffs { length payoffs.items ≡ length items.items }
        requires order { IsStrictlySortedBy birth_cmp items.items }
        requires steps { TellLonger items.items }
        ensures { result ≡ record { histories = all_steps [] items.items; items = items.items; chances = chances.items; payoffs = payoffs.items; node_firsts = firsts.nodes.items; set_firsts1 = firsts.sets1.items; set_firsts2 = firsts.sets2.items; scale = scale } }
    {
        Histories {
            items,
            chances,
            payoffs,
            firsts,
            scale,
        }
    }

    /// The histories by their numbers.
    pub(crate) fn items(&self) -> &[History]
        ensures items { result.now ≡ self.now.items }
        ensures few { length result.now ≤ 65536 }
    {
        self.items.as_slice()
    }

    /// How many histories there are, at most 65,536.
    pub fn count(&self) -> u32
        ensures count { result ≡ length self.now.items }
        ensures few { result ≤ 65536 }
    {
        self.items.len() as u32
    }

    /// The history with a number.
    pub fn item(&self, id: HistoryId) -> &History
        requires { id.0 < length self.now.items }
        ensures { slice_get self.now.items id.0 ≡ Some result.now }
    {
        &self.items[id.0 as usize]
    }

    /// The scale of the chances, and what the size of numbers goes by.
    pub fn scale(&self) -> &Scale
        ensures { result.now ≡ self.now.scale }
    {
        &self.scale
    }

    /// The chance of a history over the scale, with the chance units of all later steps.
    pub fn chance(&self, id: HistoryId) -> u128
        requires { id.0 < length self.now.items }
        ensures { result ≡ slice_index self.now.chances id.0 }
    {
        self.chances[id.0 as usize]
    }

    /// What a history pays seat 1; 0 where it is not terminal.
    pub fn payoff(&self, id: HistoryId) -> i32
        requires { id.0 < length self.now.items }
        ensures { result ≡ slice_index_or self.now.payoffs id.0 (pos 0) }
    {
        self.payoffs[id.0 as usize]
    }

    /// For each history the number of the first one of its node.
    pub fn node_firsts(&self) -> &[u32]
        ensures { result.now ≡ self.now.node_firsts }
    {
        self.firsts.nodes.as_slice()
    }

    /// For each history that is not terminal, the number of the first one of its information set of a seat, 1 or 2; 0 for a terminal one.
    pub fn set_firsts(&self, seat: u32) -> &[u32]
        requires { (seat ≡ 1) ⊎ (seat ≡ 2) }
        ensures { result.now ≡ (if seat == 1 then self.now.set_firsts1 else self.now.set_firsts2) }
    {
        if seat == 1 {
            self.firsts.sets1.as_slice()
        } else {
            self.firsts.sets2.as_slice()
        }
    }

    /// The history that is longer by this step, if there is one.
    pub fn child(&self, id: HistoryId, step: &Step) -> Option<HistoryId>
        requires { id.0 < length self.now.items }
        ensures some { IfSome result (λ k. IsLonger self.now.histories id.0 step.now k.0) }
        ensures below { IfSome result (λ k. k.0 < length self.now.items) }
        ensures none { IfNone result ((k : ℕ) → IsLonger self.now.histories id.0 step.now k → ⊥) }
    {
        child_among(self.items.as_slice(), id, *step)
    }
}
