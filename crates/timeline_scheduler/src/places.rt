//! The timeline's place of a run: behind the least set of items with which its plan fits.
ghost use Rattle.std.specs.Prelude.{◌≡◌, ◌≤◌, length};
ghost use Rattle.timeline_scheduler.specs.Placings.{IsEarliestOf, IsLeastOf, IsPlaceOf, IsPlanOf, IsSetOf, MayPlan};

use crate::scratches::Scratch;
use home_types::RunNo;
use lock_leasing::Standing;

/// The place in the line, counted from 0, where `r` is placed at this moment, in ms, once the items
/// of a set stand before the others: the number of these items. The set is the least one that
/// holds, with each item, those before it that meet it, and every item that must stand before `r`,
/// and with which the run fits: planned behind it, the run is off each of its devices before a live
/// run outside of it is planned to start there. All items are always such a set. The scratch then
/// holds the set, and the times of that plan.
///
/// The four parts belong to one window, whose model is not the weak one and whose runs are placed
/// by the timeline, and `r` is in its roster; the scratch was opened for the table's number of
/// devices, and for no fewer items than the line has. Takes no memory. Goes over the line five times,
/// and over the accesses to the run's devices, and again each time that the set grows.
pub fn place(s: &Standing, r: RunNo, moment: u64, scratch: &mut Scratch) -> u32
    requires may { MayPlan s.now r.0 }
    requires room { length scratch.old.slots ≡ length s.now.table }
    requires items { length s.now.line ≤ scratch.old.items }
    ensures exact { IsPlaceOf s.now r.0 moment result }
    ensures within { result ≤ length s.now.line }
    ensures before { IsSetOf s.now r.0 moment scratch.new.before }
    ensures flags { length scratch.new.before ≡ length s.now.line }
    ensures planned { IsPlanOf s.now r.0 moment scratch.new.slots }
    ensures least { IsLeastOf s.now r.0 moment scratch.new.before }
    ensures earliest { IsEarliestOf s.now r.0 moment scratch.new.before }
    ensures size { length scratch.new.slots ≡ length scratch.old.slots }
    ensures room_stays { scratch.new.items ≡ scratch.old.items }
{
    scratch.seed(s, r);
    scratch.close(s);
    scratch.plan(s, r, moment);
    'rounds: while scratch.take_misfits(s, r) {
        scratch.close(s);
        scratch.plan(s, r, moment);
    }
    scratch.count()
}
