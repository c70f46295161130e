//! The modes of the program, and the words that name them.
ghost use Rattle.std.specs.Prelude.{◌≡◌, ◌∷◌, [], map, string_bytes};
ghost use Rattle.std.specs.Option.{option_map};
ghost use Rattle.lab_defs_report.specs.Modes.{this_program, mode_in};
ghost use Rattle.lab_cli.specs.ModeNames.{mode_model};

/// What the program does with its input.
#[derive(Clone, Copy, Debug, PartialEq, Eq)]
pub enum Mode {
    /// Replies to the commands after a game.
    Session,
    /// Counts the histories, nodes and information sets of a game.
    Check,
    /// Writes the canonical text of a game.
    Print,
}

/// The mode that words name.
pub fn mode_of(words: &[String]) -> Option<Mode>
    ensures { option_map mode_model result ≡ mode_in this_program (map string_bytes words.now) }
{
    match words {
        [word] => mode_named(word.as_bytes()),
        _ => None,
    }
}

// The mode that one word names.
fn mode_named(word: &[u8]) -> Option<Mode>
    ensures { option_map mode_model result ≡ mode_in this_program (word.now ∷ []) }
{
    if word == b"session".as_slice() {
        return Some(Mode::Session);
    }
    if word == b"check".as_slice() {
        return Some(Mode::Check);
    }
    if word == b"print".as_slice() {
        return Some(Mode::Print);
    }
    None
}
