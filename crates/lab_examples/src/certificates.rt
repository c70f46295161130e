//! Certificates: written by a session, read, and verified.
ghost use Rattle.std.specs.Prelude.{◌≡◌, ◌++◌, ◌∷◌, [], Ok, Err};
ghost use lib.Chars.{codes};
ghost use Rattle.lab_defs_report.specs.Modes.{report_of};
ghost use Rattle.lab_examples.specs.Inputs.{text, session, verify};
ghost use Rattle.lab_examples.specs.KuhnText.{kuhn};
ghost use Rattle.lab_examples.specs.Certificates.{kuhn_certificate, bounded_certificate, loose_certificate, short_certificate, longer_certificate};

/// The certificate of the even split.
pub fn written()
    ensures { report_of session (kuhn (codes "2") ++ text (codes "blueprint uniform" ∷ codes "cert 1" ∷ []))
        ≡ text (codes "blueprint 5/12 1/2" ∷ kuhn_certificate ∷ []) }
{}

/// It needs a blueprint and a seat.
pub fn not_written()
    ensures before_a_blueprint { report_of session (kuhn (codes "2") ++ text (codes "cert 1" ∷ [])) ≡ text (codes "refused 197 NoBlueprint" ∷ []) }
    ensures no_seat { report_of session (kuhn (codes "2") ++ text (codes "blueprint uniform" ∷ codes "cert 3" ∷ []))
        ≡ text (codes "blueprint 5/12 1/2" ∷ codes "refused 198 BadSeat" ∷ []) }
{}

/// It is verified.
pub fn verified()
    ensures { report_of verify (kuhn (codes "2") ++ kuhn_certificate) ≡ text (codes "yes 5/12" ∷ []) }
{}

/// With a bound that is too low it is not, and the first inequality that fails is told.
pub fn not_verified()
    ensures { report_of verify (kuhn (codes "2") ++ loose_certificate) ≡ text (codes "no 9 . 1/24" ∷ []) }
{}

/// A bound may be as loose as 2^100, on either side of 0, and not looser.
pub fn widest_bounds()
    ensures above { report_of verify (kuhn (codes "2") ++ bounded_certificate (codes "1267650600228229401496703205376")) ≡ text (codes "yes 158456325028528675187087900672/3" ∷ []) }
    ensures too_far_above { report_of verify (kuhn (codes "2") ++ bounded_certificate (codes "1267650600228229401496703205377")) ≡ text (codes "refused 197 BadShape bounds" ∷ []) }
    ensures below { report_of verify (kuhn (codes "2") ++ bounded_certificate (codes "-1267650600228229401496703205376")) ≡ text (codes "no 0 . 633825300114114700748351602693/12" ∷ []) }
    ensures too_far_below { report_of verify (kuhn (codes "2") ++ bounded_certificate (codes "-1267650600228229401496703205377")) ≡ text (codes "refused 197 BadShape bounds" ∷ []) }
{}

/// What is no JSON, or no certificate, is refused.
pub fn not_read()
    ensures nothing { report_of verify (kuhn (codes "2")) ≡ text (codes "refused 197 BadJson" ∷ []) }
    ensures unended { report_of verify (kuhn (codes "2") ++ codes "{") ≡ text (codes "refused 197 BadJson" ∷ []) }
    ensures a_list { report_of verify (kuhn (codes "2") ++ codes "[]") ≡ text (codes "refused 197 BadShape whole" ∷ []) }
    ensures a_weight_too_few { report_of verify (kuhn (codes "2") ++ short_certificate) ≡ text (codes "refused 197 WrongCount 12 11" ∷ []) }
    ensures a_key_too_many { report_of verify (kuhn (codes "2") ++ longer_certificate) ≡ text (codes "refused 197 BadShape extra" ∷ []) }
{}
