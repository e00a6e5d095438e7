//! That the records of a legal day agree with their script, of records that a program holds.
ghost use Rattle.day_report.specs.Days.{day_text};
ghost use Rattle.legal_days.specs.LegalDays.{RecordsAreLegal};
ghost use Rattle.order_checker.specs.Records.{verdict_of};
ghost use Rattle.order_checker.specs.declared.verdicts.Verdict.TheVariants.{Agrees};
ghost use Rattle.printed_records.specs.Modes.{prints_order};
ghost use Rattle.printed_records.specs.SmallTimes.{are_small, is_small};
ghost use Rattle.routine_reader.specs.Scripts.{plain_script};
ghost use Rattle.routine_reader.specs.Sound.{IsSound};
ghost use Rattle.std.specs.List.{list_all};
ghost use Rattle.std.specs.Prelude.{length, nat_lt, true, ◌≡◌, ◌^◌};

use history_book::{Cause, End, Entry, Kept, WindowRecord};
use home_types::{List, Mode};
use routine_reader::Script;

/// The text of a legal day agrees with its script, with a trace or without, under each model that
/// promises an order: first come, first served, unless it is `ev`. Nothing is asked of the times of
/// the records: each is a number of 64 bits, and the histories are looked at for that alone.
pub fn held_day_agrees(script: &Script, mode: Mode, trace: bool, records: &List<WindowRecord>)
    requires sound { IsSound (plain_script script.now) }
    requires promised { prints_order mode ≡ true }
    requires count { length records.now.items ≡ length script.now.windows.items }
    requires legal { RecordsAreLegal script.now mode records.now.items }
    ensures { verdict_of script.now (day_text script.now records.now.items mode trace) ≡ Agrees }
{
    small_times(records.as_slice());
}

/// Each time in the cause of an abort is below 2^64, in each of the records.
fn small_times(records: &[WindowRecord])
    ensures { list_all (λ closed. are_small closed.history.items) records.now ≡ true }
{
    'records: for closed in records {
        small_entries(closed.history.as_slice());
    }
}

/// .. in a history.
pub fn small_entries(history: &[Kept])
    ensures { are_small history.now ≡ true }
{
    'entries: for kept in history {
        small_entry(kept.entry);
    }
}

/// .. in an entry.
fn small_entry(entry: Entry)
    ensures { is_small entry ≡ true }
{
    if let Entry::Ended(
        _,
        End::Aborted(
            Cause::Revoked {
                deadline,
                moment,
                ..
            },
        ),
    ) = entry
    {
        small_time(deadline);
        small_time(moment);
    }
}

/// A time in ms is below 2^64.
fn small_time(ms: u64)
    ensures { nat_lt ms (2 ^ 64) ≡ true }
{
    let _wide = ms as u128;
}
