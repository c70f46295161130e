//! The promise of a session, and what it rests on: a proposal that passes at one node is safe for the
//! whole game, few bounds change, and a certificate bounds every reply.

ghost use Rattle.lab_defs_report.specs.Headline.{Headline};
ghost use Rattle.lab_laws.specs.Sessions.{
  LocalToGlobalLaw,
  MendedLaw,
  CertifiedLaw,
  CertificateLaw,
  BrokenLaw,
  SessionCertificateLaw,
  SessionBoundsLaw,
};
ghost use Rattle.lab_laws.specs.Printed.{PrintedLaw};

/// From the blueprint on both seats of a session are guarded, and a command keeps the bounds from rising
/// and changes only what it may.
pub fn headline()
    ensures { Headline }
{}

/// A proposal that passes at the sets of its node, by any of the rules, leaves what replies earn against the whole strategy
/// within the bound at the first set, where the bounds hold; where they are tight, no higher than before.
pub fn local_to_global()
    ensures { LocalToGlobalLaw }
{}

/// Tight bounds are settled to the tight bounds of a proposal in place: they change inside its subgame and on the path
/// to it alone.
pub fn mended_bounds()
    ensures { MendedLaw }
{}

/// What a session keeps are bounds that may be kept, so the laws of how large numbers are hold of it.
pub fn kept_bounds()
    ensures { SessionBoundsLaw }
{}

/// Each reply prints the bounds and the expectation of the strategies after its command, in their units and in lowest terms.
pub fn printed_bounds()
    ensures { PrintedLaw }
{}

/// What is certified holds against every reply; a table with its tight bounds is certified; and the
/// inequalities of a certificate are found to hold exactly where they do. What a session hands out is certified.
pub fn certificates()
    ensures bounded { CertifiedLaw }
    ensures tight { CertificateLaw }
    ensures tested { BrokenLaw }
    ensures handed_out { SessionCertificateLaw }
{}
