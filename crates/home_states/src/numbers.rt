//! The numbers of device calls, which go on over all windows of a home.
ghost use Rattle.std.specs.Prelude.{◌≡◌, ◌+◌, ◌<◌, ◌≤◌, ◌^◌, Err, IfErr, IfOk, IfSome, Some, length, slice_get, ℕ};
ghost use Rattle.home_states.specs.Tickets.{CallsAreFew, IsOfNoNumber, TicketsAreGiven, WindowTickets, call_told, count_after, numbered, numbered_call, numbered_turn, refusal_of_number, window_tickets};
ghost use Rattle.device_gate.specs.Places.{kept_of};
ghost use Rattle.history_book.specs.Sealed.{StaysSealed};
ghost use Rattle.hub_core.specs.HubCalls.{SameWindow};
ghost use Rattle.hub_core.specs.OpenHubs.{configuration_of};
ghost use Rattle.hub_table.specs.Answers.{HasComeBack};
ghost use Rattle.lock_leasing.specs.Configurations.{read_of};

use device_gate::{Slip, Task, Told};
use handed_devices::HandedDevice;
use history_book::Made;
use home_types::DeviceNo;
use hub_table::{NotTaken, Table, Taken};

/// Does nothing. Its contract is how many calls a window hands out at most.
pub(crate) fn few(table: &Table<HandedDevice>)
    ensures few { CallsAreFew (configuration_of table.now) table.now.tickets
        → table.now.tickets ≤ window_tickets }
    ensures size { length table.now.places ≡ length table.now.setting.first }
{
    let hub = table.hub();
    hub.kept_invariant();
    hub.bounded();
}

/// What the step of a run did, with the home's number of the call that goes out, which is counted.
pub(crate) fn number_turn(taken: Taken, before: u64, tickets: &mut u64) -> Taken
    requires few { IfSome (call_told taken) (λ out. before + out.0.ticket < 2 ^ 64) }
    ensures told { result ≡ numbered_turn before taken }
    ensures count { tickets.new ≡ count_after tickets.old before (call_told taken) }
{
    match taken {
        Taken::Out(slip, task) => Taken::Out(number(slip, before, tickets), task),
        Taken::Moved(made) => Taken::Moved(made),
        Taken::Waits(why) => Taken::Waits(why),
        Taken::Over(end, made) => Taken::Over(end, made),
        Taken::Absent => Taken::Absent,
    }
}

/// With what a device goes out, with the home's number of the call, which is counted.
pub(crate) fn number_call(
    call: Option<(Slip, Task)>,
    before: u64,
    tickets: &mut u64,
) -> Option<(Slip, Task)>
    requires few { IfSome call (λ out. before + out.0.ticket < 2 ^ 64) }
    ensures told { result ≡ numbered_call before call }
    ensures count { tickets.new ≡ count_after tickets.old before call }
{
    match call {
        Some((slip, task)) => Some((number(slip, before, tickets), task)),
        None => None,
    }
}

/// The slip with the number of its call in the life of the home, which is counted.
fn number(slip: Slip, before: u64, tickets: &mut u64) -> Slip
    requires few { before + slip.ticket < 2 ^ 64 }
    ensures told { result ≡ numbered before slip }
    ensures count { tickets.new ≡ before + slip.ticket }
{
    *tickets = before + slip.ticket;
    Slip {
        ticket: *tickets,
        ..slip
    }
}

/// With what the device is out of the window, before which so many calls went: with the home's
/// number of the call.
pub(crate) fn lent_numbered(
    table: &Table<HandedDevice>,
    before: u64,
    d: DeviceNo,
) -> Option<(Slip, Task)>
    requires low { WindowTickets before table.now }
    ensures { result ≡ numbered_call before (kept_of (slice_get table.now.places d.0)) }
{
    few(table);
    match table.lent(d) {
        Some((slip, task)) => {
            let ticket = before + slip.ticket;
            Some((Slip { ticket, ..slip }, task))
        }
        None => None,
    }
}

/// Hands in what the device told to the call with this number in the life of the home, of which so
/// many calls went before the window, and so many were handed out so far.
pub(crate) fn answer_numbered(
    table: &mut Table<HandedDevice>,
    numbers: (u64, u64),
    d: DeviceNo,
    ticket: u64,
    told: Told,
    moment: u64,
) -> Result<Made, NotTaken>
    requires given { TicketsAreGiven table.old.places table.old.tickets }
    requires count { numbers.1 ≡ numbers.0 + table.old.tickets }
    ensures answered { IfOk result (λ made. (number : ℕ) × (ticket ≡ numbers.0 + number)
        × HasComeBack table.old d.0 number told moment made table.new) }
    ensures refused { IfErr result
        (λ why. refusal_of_number numbers.0 table.old d.0 ticket told ≡ Some why) }
    ensures late { IsOfNoNumber numbers.0 numbers.1 ticket → result ≡ Err NotTaken.NotOut }
    ensures same { IfErr result (λ _. table.new ≡ table.old) }
    ensures sealed { IfOk result (λ _. StaysSealed (read_of (configuration_of table.old))
        (read_of (configuration_of table.new))) }
    ensures window { IfOk result (λ _. SameWindow table.old table.new) }
{
    let (before, given) = numbers;
    if ticket <= before || given < ticket {
        return Err(NotTaken::NotOut);
    }
    table.answer(d, ticket - before, told, moment)
}
