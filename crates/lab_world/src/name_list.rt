//! Look-up in a list of names, none of which stands twice.
ghost use Rattle.std.specs.Prelude.{◌≡◌, ◌<◌, ◌^◌, [], length, map, position, true, IfOk};
ghost use Rattle.std.specs.Str.{bytes_eq};
ghost use Rattle.lab_defs_text.specs.Words.{apart_after};
ghost use Rattle.lab_lex.specs.Names.{name_bytes};

use crate::placed::table_of;
use lab_lex::{NameTable, place_of_name};
use std::alloc::{AllocError, Global};
use std::marker::Model;

/// Names by their places in a list: a list of at most 16 names is walked, a longer one has a table.
#[derive(Drop)]
pub struct NameList<'a> {
    names: &'a [&'a str],
    table: Option<NameTable>,
}

impl<'a> Model for NameList<'a> {
    ghost use Rattle.std.specs.Prelude.{◌≡◌, ◌≤◌, ℕ, List, length, map, MatchOption};
    ghost use Rattle.lab_lex.specs.Names.{name_bytes};

    ghost Value = { List (List ℕ) };

    ghost view = { λ l. map name_bytes l.names.now };

    ghost invariant = { λ l. MatchOption l.table (length l.names.now ≤ 16) (λ t. t ≡ map name_bytes l.names.now) };
}

impl<'a> NameList<'a> {
    /// Names, none of which stands twice, by their places, each a `u32`.
    pub fn new(alloc: Global, names: &'a [&'a str]) -> Result<NameList<'a>, AllocError>
        requires apart { apart_after [] (map name_bytes names.now) ≡ true }
        requires few { length names.now < 2 ^ 32 }
        ensures { IfOk result (λ l. l ≡ map name_bytes names.now) }
    {
        if names.len() <= 16 {
            return Ok(NameList { names, table: None });
        }
        let table = table_of(alloc, names)?;
        Ok(NameList {
            names,
            table: Some(table),
        })
    }

    /// How many names there are.
    pub fn count(&self) -> u32
        ensures { result ≡ length self.now }
    {
        match &self.table {
            Some(table) => table.count(),
            None => self.names.len() as u32,
        }
    }

    /// The place of a name, where it is there.
    pub fn find(&self, name: &str) -> Option<u32>
        ensures { result ≡ position (bytes_eq name.now) self.now }
    {
        match &self.table {
            Some(table) => table.find(name),
            None => place_of_name(self.names, name),
        }
    }
}
