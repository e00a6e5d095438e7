//! The members that an object of a script may have, and the parts that are read of them.
ghost use Rattle.routine_reader.specs.Forms.{has_form, if_there, is_state, items_in, knows, lacks, long_number_of, needed, number_of, or_default, present, state_of};
ghost use Rattle.serde_json.specs.Find.{as_bool, as_str};
ghost use Rattle.serde_json.specs.View.{view};
ghost use Rattle.std.specs.BTreeMap.{keys};
ghost use Rattle.std.specs.List.{list_all};
ghost use Rattle.std.specs.Option.{option_map_or};
ghost use Rattle.std.specs.Prelude.{◌≡◌, [], None, Some, map, option_map, string_bytes};

use serde_json::{Map, Value};

/// The version of a script in which no command has a guard.
pub const UNGUARDED: u64 = 1;

/// The version in which each command may have one.
pub const GUARDED: u64 = 2;

/// An object of a script, each with a table of its members.
#[derive(Clone, Copy, Debug, PartialEq, Eq)]
pub enum Form {
    /// The top object.
    Day,
    Device,
    Routine,
    /// A command of version 1.
    Command,
    /// A command of version 2, which may have a guard.
    GuardedCommand,
    Guard,
    Window,
    Run,
}

impl Form {
    /// Whether the table has a member of this name.
    pub fn knows(self, name: &str) -> bool
        ensures { result ≡ knows self name.now }
    {
        match self {
            Form::Day => matches!(name, "safehome" | "devices" | "routines" | "windows"),
            Form::Device => matches!(name, "name" | "states" | "low" | "high" | "start" | "down"),
            Form::Routine => matches!(name, "name" | "commands"),
            Form::Command => matches!(name, "on" | "do" | "to" | "must" | "ms" | "takes"),
            Form::GuardedCommand => {
                matches!(name, "on" | "do" | "to" | "must" | "ms" | "takes" | "when")
            }
            Form::Guard => matches!(name, "is" | "below"),
            Form::Window => matches!(name, "at" | "seed" | "probes" | "turns" | "runs"),
            Form::Run => matches!(name, "routine" | "follows"),
        }
    }
}

fn knows_all(form: Form, members: &Map<String, Value>) -> bool
    ensures { result ≡ list_all (λ name. knows form (string_bytes name)) (keys members.now) }
{
    members.keys().all(|name| form.knows(name.as_str()))
}

/// Whether the value is an object with no member that the table does not have.
pub fn has_form(form: Form, value: &Value) -> bool
    ensures { result ≡ has_form form (view value.now) }
{
    match value.as_object() {
        Some(members) => knows_all(form, members),
        None => false,
    }
}

/// Whether the value has no such member.
pub fn lacks(value: &Value, name: &str) -> bool
    ensures { result ≡ lacks name.now (view value.now) }
{
    value.get(name).is_none()
}

/// A whole number of 64 bits.
pub fn long_number_of(value: &Value) -> Option<u64>
    ensures { result ≡ long_number_of (view value.now) }
{
    value.as_u64()
}

/// A whole number of 32 bits.
pub fn number_of(value: &Value) -> Option<u32>
    ensures { result ≡ number_of (view value.now) }
{
    match value.as_u64() {
        Some(number) if number <= u64::from(u32::MAX) => Some(number as u32),
        _ => None,
    }
}

/// The items of a list.
pub fn items_in(value: &Value) -> Option<&[Value]>
    ensures { option_map (λ items. map view items.now) result ≡ items_in (view value.now) }
{
    match value.as_array() {
        Some(items) => Some(items.as_slice()),
        None => None,
    }
}

/// A text or a whole number, which may name a state.
pub fn state_of(value: &Value) -> Option<&Value>
    ensures { option_map (λ state. view state.now) result ≡ state_of (view value.now) }
{
    if value.is_string() || number_of(value).is_some() {
        Some(value)
    } else {
        None
    }
}

/// The text that a member is.
pub fn text_at<'a>(value: &'a Value, name: &str) -> Option<&'a str>
    ensures { option_map (λ text. text.now) result ≡ needed as_str name.now (view value.now) }
{
    value.get(name).and_then(Value::as_str)
}

/// The list that a member is.
pub fn list_at<'a>(value: &'a Value, name: &str) -> Option<&'a [Value]>
    ensures { option_map (λ items. map view items.now) result
        ≡ needed items_in name.now (view value.now) }
{
    items_in(value.get(name)?)
}

/// The list that a member is, empty where the member is missing.
pub fn list_or_empty<'a>(value: &'a Value, name: &str) -> Option<&'a [Value]>
    ensures { option_map (λ items. map view items.now) result
        ≡ or_default items_in [] name.now (view value.now) }
{
    match value.get(name) {
        Some(member) => items_in(member),
        None => Some(&[]),
    }
}

/// The list that a member is, if it is there.
pub fn list_if_there<'a>(value: &'a Value, name: &str) -> Option<Option<&'a [Value]>>
    ensures { option_map (λ there. option_map (λ items. map view items.now) there) result
        ≡ if_there items_in name.now (view value.now) }
{
    match value.get(name) {
        Some(member) => Some(Some(items_in(member)?)),
        None => Some(None),
    }
}

/// The whole number of 64 bits that a member is.
pub fn long_number_at(value: &Value, name: &str) -> Option<u64>
    ensures { result ≡ needed long_number_of name.now (view value.now) }
{
    long_number_of(value.get(name)?)
}

/// The whole number of 64 bits that a member is, or this one where the member is missing.
pub fn long_number_or(value: &Value, name: &str, default: u64) -> Option<u64>
    ensures { result ≡ or_default long_number_of default name.now (view value.now) }
{
    match value.get(name) {
        Some(member) => long_number_of(member),
        None => Some(default),
    }
}

/// The whole number of 32 bits that a member is, or this one where the member is missing.
pub fn number_or(value: &Value, name: &str, default: u32) -> Option<u32>
    ensures { result ≡ or_default number_of default name.now (view value.now) }
{
    number_given(value.get(name), default)
}

/// The whole number of 32 bits that a member is, if it is there.
pub fn number_if_there(value: &Value, name: &str) -> Option<Option<u32>>
    ensures { result ≡ if_there number_of name.now (view value.now) }
{
    match value.get(name) {
        Some(member) => Some(Some(number_of(member)?)),
        None => Some(None),
    }
}

/// The text or the whole number that a member is.
pub fn state_at<'a>(value: &'a Value, name: &str) -> Option<&'a Value>
    ensures { option_map (λ state. view state.now) result
        ≡ needed state_of name.now (view value.now) }
{
    state_of(value.get(name)?)
}

/// The whole number of 32 bits that the member is, or this one where it is missing.
pub fn number_given(member: Option<&Value>, default: u32) -> Option<u32>
    ensures { result
        ≡ option_map_or number_of (option_map (λ m. view m.now) member.entry) (Some default) }
{
    match member {
        Some(member) => number_of(member),
        None => Some(default),
    }
}

/// The flag that the member is, or this one where it is missing.
pub fn flag_given(member: Option<&Value>, default: bool) -> Option<bool>
    ensures { result
        ≡ option_map_or as_bool (option_map (λ m. view m.now) member.entry) (Some default) }
{
    match member {
        Some(member) => member.as_bool(),
        None => Some(default),
    }
}

/// The text or the whole number that the member is, if it is there.
pub fn state_given(member: Option<&Value>) -> Option<Option<&Value>>
    ensures { option_map (λ there. option_map (λ state. view state.now) there) result
        ≡ option_map_or (present state_of) (option_map (λ m. view m.now) member.entry) (Some None) }
{
    match member {
        Some(member) => Some(Some(state_of(member)?)),
        None => Some(None),
    }
}
