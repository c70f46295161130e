//! The names of the rules, as commands and reports have them.

/// The rule by which a part of a strategy may be replaced.
#[derive(Clone, Copy, Debug, PartialEq, Eq)]
pub enum RuleName {
    /// After Burch, Johanson and Bowling, *Solving imperfect information games using decomposition*, 2014.
    Cfrd,
    /// After Moravčík, Schmid, Ha, Hladík and Gaukrodger, *Refining subgames in large imperfect information games*, 2016.
    Margin,
    /// After Brown and Sandholm, *Safe and nested subgame solving for imperfect-information games*, 2017.
    Reach,
}
