//! A command of a script, read.
ghost use Rattle.home_types.specs.Limits.{most_states};
ghost use Rattle.routine_reader.specs.AreRead.{AreDevices};
ghost use Rattle.routine_reader.specs.Commands.{command_form, command_members, command_reading, guard_of, job_of, kind_of, state_names_of, suits_verb, verb_of};
ghost use Rattle.routine_reader.specs.Scripts.{plain_device};
ghost use Rattle.routine_reader.specs.Forms.{knows, names_of};
ghost use Rattle.routine_reader.specs.GivenMembers.{given_of, given_in, with_member};
ghost use Rattle.serde_json.specs.View.{members_view, view};
ghost use Rattle.std.specs.List.{list_all};
ghost use Rattle.std.specs.Option.{option_map_or};
ghost use Rattle.std.specs.Prelude.{◌≡◌, ◌<◌, ◌≤◌, All, IfSome, IsTrue, Some, is_some, length, map, option_map};

use crate::devices::{NamedDevices, value_in};
use crate::faults::{Count, Part, ReadFault, within_limit};
use crate::forms::{
    Form, UNGUARDED, flag_given, has_form, number_given, number_if_there, state_given,
};
use crate::scripts::DeviceText;
use home_types::{Command, DeviceNo, Guard, Job, Kind, Text};
use serde_json::{Map, Value as Json};

/// The estimate of a command that gives none, in ms.
const DEFAULT_MS: u32 = 100;

/// What a command says that it does.
#[derive(Clone, Copy, Debug, PartialEq, Eq)]
pub enum Verb {
    Set,
    Check,
    Load,
    Store,
}

fn verb_of(text: &str) -> Option<Verb>
    ensures { result ≡ verb_of text.now }
{
    match text {
        "set" => Some(Verb::Set),
        "check" => Some(Verb::Check),
        "load" => Some(Verb::Load),
        "store" => Some(Verb::Store),
        _ => None,
    }
}

/// The members of a command, each of its type.
#[derive(Clone, Copy)]
struct CommandMembers<'a> {
    device: &'a str,
    verb: Verb,
    to: Option<&'a Json>,
    when: Guard,
    must: bool,
    ms: u32,
    takes: u32,
}

fn suits_verb(verb: Verb, to: Option<&Json>) -> bool
    ensures { result ≡ suits_verb verb (option_map (λ state. view state.now) to.entry) }
{
    match verb {
        Verb::Set | Verb::Check => to.is_some(),
        Verb::Load | Verb::Store => to.is_none(),
    }
}

/// The members of a command that are there, of any type.
#[derive(Clone, Copy)]
struct GivenMembers<'a> {
    on: Option<&'a Json>,
    verb: Option<&'a Json>,
    to: Option<&'a Json>,
    when: Option<&'a Json>,
    must: Option<&'a Json>,
    ms: Option<&'a Json>,
    takes: Option<&'a Json>,
}

impl<'a> GivenMembers<'a> {
    /// Keeps a member that a command of this version may have. Whether it is one.
    fn keep(&mut self, version: u64, name: &str, value: &'a Json) -> bool
        ensures known { result ≡ knows (command_form version) name.now }
        ensures kept { IsTrue result
            → given_of self.new ≡ with_member name.now (view value.now) (given_of self.old) }
    {
        match name {
            "on" => self.on = Some(value),
            "do" => self.verb = Some(value),
            "to" => self.to = Some(value),
            "must" => self.must = Some(value),
            "ms" => self.ms = Some(value),
            "takes" => self.takes = Some(value),
            "when" if version != UNGUARDED => self.when = Some(value),
            _ => return false,
        }
        true
    }
}

/// The members of a command, by one walk over them. `None` where one of them is no member of a
/// command of this version.
fn given_members(version: u64, members: &Map<String, Json>) -> Option<GivenMembers<'_>>
    ensures known { is_some result
        ≡ list_all (knows (command_form version)) (names_of (members_view members.now.entries)) }
    ensures given { IfSome result
        (λ given. given_of given ≡ given_in (members_view members.now.entries)) }
{
    let mut given = GivenMembers {
        on: None,
        verb: None,
        to: None,
        when: None,
        must: None,
        ms: None,
        takes: None,
    };
    'members: for (name, value) in members.iter() {
        if !given.keep(version, name.as_str(), value) {
            return None;
        }
    }
    Some(given)
}

/// What is asked of the register: an object with one of `is` and `below`, which is a whole number.
fn guard_of(value: &Json) -> Option<Guard>
    ensures { result ≡ guard_of (view value.now) }
{
    if !has_form(Form::Guard, value) {
        return None;
    }
    let is = number_if_there(value, "is")?;
    let below = number_if_there(value, "below")?;
    match (is, below) {
        (Some(number), None) => Some(Guard::Is(number)),
        (None, Some(number)) => Some(Guard::Below(number)),
        (None, None) | (Some(_), Some(_)) => None,
    }
}

/// The guard that the member is, or the one that always holds where it is missing.
fn guard_given(member: Option<&Json>) -> Option<Guard>
    ensures { result
        ≡ option_map_or guard_of (option_map (λ m. view m.now) member.entry) (Some Guard.Always) }
{
    match member {
        Some(member) => guard_of(member),
        None => Some(Guard::Always),
    }
}

fn command_members(version: u64, value: &Json) -> Option<CommandMembers<'_>>
    ensures { option_map (λ members. record {
      device = members.device.now;
      verb = members.verb;
      to = option_map (λ state. view state.now) members.to;
      when = members.when;
      must = members.must;
      ms = members.ms;
      takes = members.takes;
    }) result ≡ command_members version (view value.now) }
{
    let given = given_members(version, value.as_object()?)?;
    let device = given.on?.as_str()?;
    let verb = verb_of(given.verb?.as_str()?)?;
    let to = state_given(given.to)?;
    let when = guard_given(given.when)?;
    let must = flag_given(given.must, true)?;
    let ms = number_given(given.ms, DEFAULT_MS)?;
    let takes = number_given(given.takes, ms)?;
    if !suits_verb(verb, to) {
        return None;
    }
    Some(CommandMembers {
        device,
        verb,
        to,
        when,
        must,
        ms,
        takes,
    })
}

/// The job on a device with these values; none where it has not the one that is to be set or found.
fn job_of(verb: Verb, to: Option<&Json>, kind: Kind, states: &[Text]) -> Option<Job>
    requires { length states.now ≤ most_states }
    ensures { result ≡ job_of verb (option_map (λ state. view state.now) to.entry) kind states.now }
{
    match verb {
        Verb::Set => Some(Job::Set(value_in(kind, states, to?)?)),
        Verb::Check => Some(Job::Check(value_in(kind, states, to?)?)),
        Verb::Load => Some(Job::Load),
        Verb::Store => Some(Job::Store),
    }
}

/// The kind of this device.
fn kind_of(devices: &[DeviceText], d: usize) -> Kind
    requires { d < length devices.now }
    ensures { result ≡ kind_of (map plain_device devices.now) d }
{
    devices[d].kind
}

/// The names of the states of this device.
fn states_of(devices: &[DeviceText], d: usize) -> &[Text]
    requires number { d < length devices.now }
    requires few { All (λ device. length device.states.items ≤ most_states) devices.now }
    ensures states { result.now ≡ state_names_of (map plain_device devices.now) d }
    ensures few { length result.now ≤ most_states }
{
    devices[d].states.as_slice()
}

/// Reads the command at this place of a script of this version, of these devices.
#[tactic(auto, unfolding(crate::specs::Commands::command_reading))]
pub fn read_command(
    version: u64,
    devices: &NamedDevices<'_>,
    routine: u32,
    number: u32,
    value: &Json,
) -> Result<Command, ReadFault>
    requires { AreDevices devices.now }
    ensures { result ≡ command_reading version
        (map plain_device devices.now.texts.items) routine number (view value.now) }
{
    let spot = Part::Command.inside(routine, number);
    let Some(members) = command_members(version, value) else {
        return Err(ReadFault::Shape(spot));
    };
    let Some(device) = devices.names.place_of(members.device) else {
        return Err(ReadFault::UnknownName(spot));
    };
    let texts = devices.texts.as_slice();
    let (kind, states) = (kind_of(texts, device), states_of(texts, device));
    let Some(job) = job_of(members.verb, members.to, kind, states) else {
        return Err(ReadFault::BadState(spot));
    };
    within_limit(Count::Ms, u64::from(members.ms))?;
    within_limit(Count::Ms, u64::from(members.takes))?;
    Ok(Command {
        device: DeviceNo(device as u16),
        job,
        when: members.when,
        must: members.must,
        ms: members.ms,
        takes: members.takes,
    })
}
