//! A command of a session.
use lab_rule::RuleName;
use lab_seq::Seq;

/// What a line asks for. Seats and nodes are those that it names; whether they are there is the session's to say.
#[derive(Drop)]
pub enum Command {
    ExpectUniform,
    Expect,
    BlueprintUniform,
    /// The weights of seat 1's deciding sets in set order, then seat 2's.
    BlueprintGiven {
        weights: Seq<u32>,
    },
    BlueprintSolve {
        rounds: u32,
    },
    Bound {
        seat: u32,
    },
    Show {
        seat: u32,
    },
    /// The weights of the seat's deciding sets inside the subgame, in set order.
    Propose {
        seat: u32,
        node: u32,
        rule: RuleName,
        weights: Seq<u32>,
    },
    Resolve {
        seat: u32,
        node: u32,
        rule: RuleName,
        rounds: u32,
    },
    Cert {
        seat: u32,
    },
    /// The words that a walk draws with.
    Deal {
        words: Seq<u64>,
    },
    /// How many rounds, and the seed of the generator: the number of the command's line.
    Play {
        rounds: u32,
        seed: u32,
    },
}
