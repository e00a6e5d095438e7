//! A device fails or comes back: line, table and history are told.
ghost use Rattle.std.specs.Prelude.{◌≡◌, ◌<◌, ◌≤◌, IfSome, IsSome, IsTrue, Some, false, length, option_map, true};
ghost use Rattle.command_rules.specs.Rosters.{is_run};
ghost use Rattle.failure_serialization.specs.Events.{lost_run};
ghost use Rattle.history_book.specs.ReadHistories.{read_in, with_entry, with_lost};
ghost use Rattle.history_book.specs.WellFormed.{may_follow};
ghost use Rattle.home_types.specs.declared.items.Item.TheVariants.{Back, Failed};
ghost use Rattle.hub_core.specs.OrderStates.{HasFallen, HasRisen, IsLostTo, MayTurn};
ghost use Rattle.lineage_table.specs.Lineages.{accesses_at};

use failure_serialization::{device_failed, device_recovered};
use history_book::{Cause, Entry, ReadHistory};
use home_types::{DeviceNo, List, RunNo};
use window_order::{OrderState, seal};

/// A device has failed.
#[derive(Clone, Copy, Debug, PartialEq, Eq)]
pub(crate) struct Failure {
    pub(crate) entry: Entry,
    /// The run that is lost.
    pub(crate) lost: Option<RunNo>,
}

/// The device, which was counted up, has failed for the time of this number, counted from 1: the
/// failure comes into the line, in which all before the first live run is sealed then, the device
/// is counted down, and the history tells it. The run `first` has died there with its first access.
pub(crate) fn note_fall(
    history: &mut ReadHistory,
    order: &mut OrderState,
    maker: u32,
    d: DeviceNo,
    number: u32,
    first: Option<RunNo>,
) -> Failure
    requires may { MayTurn true
        (Failed d number) history.old.spare d order.old.line order.old.table }
    requires follows { IsTrue
        (may_follow history.old.setting (read_in history.old) (Entry.Fell d)) }
    ensures entry { result.entry ≡ Entry.Fell d }
    ensures history { history.new ≡ with_entry history.old maker (Entry.Fell d) }
    ensures order { HasFallen history.old d first number order.old.line order.new.line
        order.old.table order.new.table }
    ensures lost { result.lost ≡ lost_run history.old.history (accesses_at order.old.table d.0) }
{
    let lost = device_failed(
        &mut order.line,
        &mut order.table,
        history.book(),
        d,
        number,
        first,
    );
    seal(&mut order.line);
    let entry = Entry::Fell(d);
    history.push(maker, entry);
    Failure { entry, lost }
}

/// The device, which was counted down, is back for the time of this number, counted from 1: the
/// restart comes into the line, in which all before the first live run is sealed then, the device
/// is counted up, and the history tells it.
pub(crate) fn note_rise(
    history: &mut ReadHistory,
    order: &mut OrderState,
    maker: u32,
    d: DeviceNo,
    number: u32,
) -> Entry
    requires may { MayTurn false
        (Back d number) history.old.spare d order.old.line order.old.table }
    requires follows { IsTrue
        (may_follow history.old.setting (read_in history.old) (Entry.Rose d)) }
    ensures entry { result ≡ Entry.Rose d }
    ensures history { history.new ≡ with_entry history.old maker (Entry.Rose d) }
    ensures order { HasRisen history.old d number order.old.line order.new.line order.old.table
        order.new.table }
{
    device_recovered(&mut order.line, &mut order.table, history.book(), d, number);
    seal(&mut order.line);
    let entry = Entry::Rose(d);
    history.push(maker, entry);
    entry
}

/// The run is doomed that the failure of the device loses, where there is one. It stays the holder
/// of the device that is out for it.
pub(crate) fn doom_lost(
    history: &mut ReadHistory,
    order: &mut OrderState,
    held_tokens: &List<Option<DeviceNo>>,
    d: DeviceNo,
    lost: Option<RunNo>,
) -> Option<Entry>
    requires run { IfSome lost
        (λ r. IsTrue (is_run history.old.setting.runs r.0) × (r.0 ≤ length held_tokens.now.items)) }
    requires room { IsSome lost → 0 < history.old.spare }
    requires follows { IfSome lost (λ r. IsTrue
        (may_follow history.old.setting (read_in history.old) (Entry.Doomed r (Cause.Lost d)))) }
    ensures entry { result ≡ option_map (λ r. Entry.Doomed r (Cause.Lost d)) lost }
    ensures history { history.new ≡ with_lost history.old d lost }
    ensures line { order.new.line ≡ order.old.line }
    ensures table { IsLostTo lost held_tokens.now.items order.old.table order.new.table }
{
    let Some(r) = lost else {
        return None;
    };
    let out = *held_tokens.get(r.0 as u64 - 1).unwrap();
    order.doom(r, out);
    let entry = Entry::Doomed(r, Cause::Lost(d));
    history.push(0, entry);
    Some(entry)
}
