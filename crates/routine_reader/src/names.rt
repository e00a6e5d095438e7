//! Names of devices and routines, which are told apart.
ghost use Rattle.routine_reader.specs.Names.{is_among, is_name, is_name_byte, new_name, place_of, starts_with_letter};
ghost use Rattle.routine_reader.specs.Walks.{IsReading};
ghost use Rattle.std.specs.List.{list_all};
ghost use Rattle.std.specs.Prelude.{◌≡◌, ◌<◌, ◌++◌, ◌∷◌, [], IfOk, IfSome, OnOk, false, length};

use crate::faults::{ReadFault, Spot};
use home_types::{NoMemory, Text};
use indexmap::IndexSet;
use std::alloc::Global;
use std::marker::Model;

/// How many characters a name has at most.
pub const CHARACTERS: usize = 32;

fn is_name_byte(byte: u8) -> bool
    ensures { result ≡ is_name_byte byte }
{
    byte.is_ascii_lowercase() || byte.is_ascii_digit() || byte == b'_' || byte == b'-'
}

fn has_name_bytes(bytes: &[u8]) -> bool
    ensures { result ≡ list_all is_name_byte bytes.now }
{
    bytes.iter().all(|byte| is_name_byte(*byte))
}

fn starts_with_letter(bytes: &[u8]) -> bool
    ensures { result ≡ starts_with_letter bytes.now }
{
    match bytes.first() {
        Some(first) => first.is_ascii_lowercase(),
        None => false,
    }
}

/// Whether the text is a name: 1 to 32 characters out of `a` to `z`, `0` to `9`, `_` and `-`, the
/// first a letter.
pub fn is_name(text: &str) -> bool
    ensures { result ≡ is_name text.now }
{
    let bytes = text.as_bytes();
    starts_with_letter(bytes) && bytes.len() <= CHARACTERS && has_name_bytes(bytes)
}

/// The place of a name among names, counted from 0.
pub fn place_of(names: &[Text], name: &str) -> Option<usize>
    ensures place { result ≡ place_of names.now name.now }
    ensures within { IfSome result (λ place. place < length names.now) }
{
    names.iter().position(|known| name == known.as_str())
}

/// Names, all different, each with its number from 0 in the order in which they were added. They
/// stand in the value that is read, and are not copied.
#[derive(Drop)]
pub struct Names<'a> {
    names: IndexSet<&'a str>,
}

impl<'a> Model for Names<'a> {
    ghost use Rattle.std.specs.Prelude.{ℕ, List, map};

    ghost Value = { List (List ℕ) };

    ghost view = { λ s. map (λ name. name.now) s.names.keys };
}

impl<'a> Names<'a> {
    /// No names. Takes no memory.
    pub fn new(alloc: Global) -> Names<'a>
        ensures { result ≡ [] }
    {
        Names {
            names: IndexSet::new(alloc),
        }
    }

    /// The number of a name.
    pub fn place_of(&self, name: &str) -> Option<usize>
        ensures place { result ≡ place_of self.now name.now }
        ensures within { IfSome result (λ place. place < length self.now) }
    {
        self.names.get_index_of(name)
    }

    /// Whether it is one of the names.
    pub fn has(&self, name: &str) -> bool
        ensures { result ≡ is_among self.now name.now }
    {
        self.names.contains(name)
    }

    /// Gives the next number to a name, or answers `NoMemory`.
    pub fn add(&mut self, name: &'a str) -> Result<(), NoMemory>
        requires { is_among self.old name.now ≡ false }
        ensures { OnOk result (self.new ≡ self.old ++ name.now ∷ []) }
    {
        match self.names.insert(name) {
            Ok(_) => Ok(()),
            Err(_) => Err(NoMemory),
        }
    }
}

/// Refuses a text that is no name, and a name that is one of these.
pub fn new_name<'a>(spot: Spot, names: &Names<'a>, text: &'a str) -> Result<&'a str, ReadFault>
    ensures reading { IsReading (λ name. name.now) result (new_name spot names.now text.now) }
    ensures new { IfOk result (λ name. is_among names.now name.now ≡ false) }
{
    if !is_name(text) {
        return Err(ReadFault::BadName(spot));
    }
    if names.has(text) {
        return Err(ReadFault::DoubleName(spot));
    }
    Ok(text)
}
