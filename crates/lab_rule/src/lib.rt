//! The rules by which a part of a strategy may be replaced, what they are told of it, and what they make of it.
#![tactic(auto)]

mod allowances;
mod factors;
mod gadget;
mod gadget_parts;
mod name;
mod path;
mod rule;
mod view;

pub use allowances::allow_nothing;
pub use gadget::write_gadget;
pub use name::RuleName;
pub use path::{PathSet, PathStep};
pub use rule::Rule;
pub use view::View;
