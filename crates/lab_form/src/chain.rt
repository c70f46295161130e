//! Walks along the numbers of the sets or rows at one place of a form.

ghost use Rattle.std.specs.Prelude.{◌≡◌, ◌≤◌, ◌∷◌, length, IfSome, IfNone};
ghost use Rattle.std.specs.Iterator.{YieldsFirst, item_count};
ghost use Rattle.lab_form.specs.Columns.{AreLinks, chained};

use std::marker::Model;

/// The numbers of some sets or rows of a form, from the last to the first.
#[derive(Drop)]
pub struct Chain<'a> {
    links: &'a [u32],
    next: u32,
}

impl<'a> Model for Chain<'a> {
    ghost use Rattle.std.specs.Prelude.{ℕ, ◌≤◌, List, length};
    ghost use Rattle.lab_form.specs.Columns.{AreLinks, chained};

    ghost Value = { List ℕ };

    ghost view = { λ c. chained c.links.now c.next };

    ghost invariant = { λ c. AreLinks c.links.now × (c.next ≤ length c.links.now) };
}

impl<'a> Chain<'a> {
    /// The numbers along links, from `next` on: each is one less than what leads to it.
    pub(crate) fn from(links: &'a [u32], next: u32) -> Self
        requires links { AreLinks links.now }
        requires next { next ≤ length links.now }
        ensures { result ≡ chained links.now next }
    {
        Chain { links, next }
    }
}

impl<'a> Iterator for Chain<'a> {
    type Item = u32;

    ghost next_gives = { YieldsFirst (λ c. c) };

    ghost remaining = { item_count (λ c. c) };

    fn next(&mut self) -> Option<u32> {
        let (number, next) = first(self.links, self.next)?;
        self.next = next;
        Some(number)
    }
}

/// The first number along links and what leads on from it, or nothing where `next` is 0.
#[tactic(auto, using(crate::proofs::ChainLemmas::chained_step))]
fn first(links: &[u32], next: u32) -> Option<(u32, u32)>
    requires links { AreLinks links.now }
    requires next { next ≤ length links.now }
    ensures none { IfNone result (next ≡ 0) }
    ensures some { IfSome result (λ r. chained links.now next ≡ r.0 ∷ chained links.now r.1) }
    ensures within { IfSome result (λ r. r.1 ≤ length links.now) }
{
    let number = next.checked_sub(1)?;
    Some((number, links[number as usize]))
}
