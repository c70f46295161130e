//! Tables of names, which number the names in the order in which they are added.

ghost use Rattle.std.specs.Prelude.{
  ◌≡◌,
  ◌+◌,
  ◌<◌,
  ◌^◌,
  ◌++◌,
  ◌∷◌,
  [],
  length,
  OnOk,
  OnErr,
  IfOk,
  IfErr,
  Some,
  slice_get,
  ℕ,
  None,
  position,
  map,
  string_bytes,
};
ghost use Rattle.std.specs.Str.{bytes_eq};
ghost use Rattle.lab_lex.specs.Names.{name_bytes};

use indexmap::IndexSet;
use std::alloc::Global;
use std::marker::Model;

/// No memory was left.
#[derive(Clone, Copy, Debug, PartialEq, Eq)]
pub struct NoMemory;

/// Why a name was not added: it is there already, with this number, or no memory was left.
#[derive(Clone, Copy, Debug, PartialEq, Eq)]
pub enum TableFault {
    Twice { number: u32 },
    Memory,
}

/// Names, each once, by their numbers: 0, 1, .. in the order of adding. A name is looked up by its hash.
#[derive(Drop)]
pub struct NameTable {
    names: IndexSet<String>,
}

impl Model for NameTable {
    ghost use Rattle.std.specs.Prelude.{ℕ, List, ◌<◌, ◌^◌, length, map, string_bytes};

    ghost Value = { List (List ℕ) };

    ghost view = { λ t. map string_bytes t.names.keys };

    ghost invariant = { λ t. length t.names.keys < 2 ^ 32 };
}

impl NameTable {
    /// A table with no name.
    pub fn new(alloc: Global) -> Result<NameTable, NoMemory>
        ensures { IfOk result (λ t. t ≡ []) }
    {
        Ok(NameTable {
            names: IndexSet::new(alloc),
        })
    }

    /// How many names there are.
    pub fn count(&self) -> u32
        ensures { result ≡ length self.now }
    {
        self.names.len() as u32
    }

    /// The name of a number below the count.
    pub fn name(&self, number: u32) -> &str
        requires { number < length self.now }
        ensures { slice_get self.now number ≡ Some result.now }
    {
        self.names[number as usize].as_str()
    }

    /// The number of a name, where it is there.
    pub fn find(&self, name: &str) -> Option<u32>
        ensures { result ≡ position (bytes_eq name.now) self.now }
    {
        let number = self.names.get_index_of(name)?;
        Some(number as u32)
    }

    /// Adds a name that is not there yet, and answers its number. After an error the table is as it was.
    pub fn add(&mut self, name: &str) -> Result<u32, TableFault>
        requires { length self.old + 1 < 2 ^ 32 }
        ensures ok { IfOk result (λ number. (number ≡ length self.old) × (position (bytes_eq name.now) self.old ≡ None)) }
        ensures added { OnOk result (self.new ≡ self.old ++ name.now ∷ []) }
        ensures twice { IfErr result (λ e. (n : ℕ) → e ≡ TableFault.Twice n → position (bytes_eq name.now) self.old ≡ Some n) }
        ensures kept { OnErr result (self.new ≡ self.old) }
    {
        if let Some(number) = self.find(name) {
            return Err(TableFault::Twice { number });
        }
        let number = self.count();
        match insert_new(&mut self.names, name) {
            Ok(()) => Ok(number),
            Err(NoMemory) => Err(TableFault::Memory),
        }
    }
}

// Puts a name that isn't there at the end.
fn insert_new(names: &mut IndexSet<String>, name: &str) -> Result<(), NoMemory>
    requires { position (bytes_eq name.now) (map string_bytes names.old.keys) ≡ None }
    ensures ok { OnOk result (map string_bytes names.new.keys ≡ map string_bytes names.old.keys ++ name.now ∷ []) }
    ensures len { OnOk result (length names.new.keys ≡ length names.old.keys + 1) }
    ensures err { OnErr result (names.new.keys ≡ names.old.keys) }
{
    let alloc = *names.allocator();
    let Ok(text) = String::from_str(alloc, name) else {
        return Err(NoMemory);
    };
    let Ok(_) = names.insert(text) else {
        return Err(NoMemory);
    };
    Ok(())
}

/// The place of a name in a list, which is walked: for lists that are too short to be worth a table.
pub fn place_of_name(names: &[&str], name: &str) -> Option<u32>
    requires { length names.now < 2 ^ 32 }
    ensures { result ≡ position (bytes_eq name.now) (map name_bytes names.now) }
{
    let place = first_named(names, name)?;
    Some(place as u32)
}

fn first_named(names: &[&str], name: &str) -> Option<usize>
    ensures { result ≡ position (λ k. bytes_eq name.now (name_bytes k)) names.now }
{
    names.iter().position(|other| name == *other)
}
