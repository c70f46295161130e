//! Lines of a text, from their words.
ghost use Rattle.std.specs.Prelude.{◌≡◌, ◌<◌, ◌++◌, ◌∷◌, [], length, map, take, nat_lt, IsTrue, OnOk, OnErr};
ghost use Rattle.std.specs.List.{list_all};
ghost use Rattle.lab_defs_text.specs.Lines.{joined};
ghost use Rattle.lab_defs_text.specs.Texts.{name_of};
ghost use Rattle.lab_world.specs.declared.place.ActionId.{ActionId};
ghost use Rattle.lab_world.specs.Models.{action_list};
ghost use Rattle.lab_text.specs.Parts.{spaced};

use lab_lex::NameTable;
use lab_world::ActionId;
use std::alloc::AllocError;

/// Adds a line: a keyword, and words after it. Where no memory is left, the text is as it was.
pub fn push_line(text: &mut Vec<u8>, keyword: &[u8], words: &[&[u8]]) -> Result<(), AllocError>
    ensures added { OnOk result (text.new.items ≡ text.old.items
        ++ (joined (keyword.now ∷ map (λ w. w.now) words.now) ++ 10 ∷ [])) }
    ensures kept { OnErr result (text.new.items ≡ text.old.items) }
{
    let len = text.len();
    let pushed = push_pieces(text, keyword, words);
    if pushed.is_err() {
        text.truncate(len);
    }
    pushed
}

// Likewise, but where no memory is left, a part of the line may be there.
fn push_pieces(text: &mut Vec<u8>, keyword: &[u8], words: &[&[u8]]) -> Result<(), AllocError>
    ensures added { OnOk result (text.new.items ≡ text.old.items
        ++ (joined (keyword.now ∷ map (λ w. w.now) words.now) ++ 10 ∷ [])) }
    ensures kept { OnErr result (take (length text.old.items) text.new.items ≡ text.old.items) }
{
    text.extend_from_slice(keyword)?;
    push_words(text, words)?;
    text.push(b'\n')?;
    Ok(())
}

/// Adds a line: a keyword, and the names of actions behind it.
pub fn push_actions(
    text: &mut Vec<u8>,
    keyword: &[u8],
    actions: &NameTable,
    ids: &[ActionId],
) -> Result<(), AllocError>
    requires { IsTrue (list_all (λ (i : ActionId). nat_lt i.0 (length actions.now)) ids.now) }
    ensures { OnOk result (text.new.items ≡ text.old.items
        ++ (joined (keyword.now ∷ action_list actions.now ids.now) ++ 10 ∷ [])) }
{
    text.extend_from_slice(keyword)?;
    push_names(text, actions, ids)?;
    text.push(b'\n')?;
    Ok(())
}

/// The bytes of the name with a number.
pub fn name_with(names: &NameTable, number: u32) -> &[u8]
    requires { number < length names.now }
    ensures { result.now ≡ name_of names.now number }
{
    names.name(number).as_bytes()
}

/// The name of the action at a place of a list.
pub fn action_at<'a>(actions: &'a NameTable, ids: &[ActionId], place: usize) -> &'a [u8]
    requires known { IsTrue (list_all (λ (i : ActionId). nat_lt i.0 (length actions.now)) ids.now) }
    requires place { place < length ids.now }
    ensures { result.now ≡ name_of (action_list actions.now ids.now) place }
{
    name_with(actions, ids[place].0)
}

// Adds words, a space before each; on an error, some of them.
fn push_words(text: &mut Vec<u8>, words: &[&[u8]]) -> Result<(), AllocError>
    ensures added { OnOk result (text.new.items ≡ text.old.items ++ spaced (map (λ w. w.now) words.now)) }
    ensures kept { OnErr result (take (length text.old.items) text.new.items ≡ text.old.items) }
{
    for word in words {
        push_word(text, word)?;
    }
    Ok(())
}

// Adds the names of actions, a space before each.
fn push_names(text: &mut Vec<u8>, actions: &NameTable, ids: &[ActionId]) -> Result<(), AllocError>
    requires { IsTrue (list_all (λ (i : ActionId). nat_lt i.0 (length actions.now)) ids.now) }
    ensures { OnOk result (text.new.items ≡ text.old.items ++ spaced (action_list actions.now ids.now)) }
{
    for id in ids {
        push_word(text, name_with(actions, id.0))?;
    }
    Ok(())
}

// Adds a space and a word; on an error, the space at most.
fn push_word(text: &mut Vec<u8>, word: &[u8]) -> Result<(), AllocError>
    ensures added { OnOk result (text.new.items ≡ text.old.items ++ 32 ∷ word.now) }
    ensures kept { OnErr result (take (length text.old.items) text.new.items ≡ text.old.items) }
{
    text.push(b' ')?;
    text.extend_from_slice(word)
}
