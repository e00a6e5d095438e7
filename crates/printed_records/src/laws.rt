//! What is true of the record that is printed of a legal day. Each law is a function with no work
//! in it, whose contract is the law.

ghost use Rattle.day_report.specs.Days.{day_text};
ghost use Rattle.history_book.specs.declared.records.WindowRecord.{WindowRecord};
ghost use Rattle.home_types.specs.declared.modes.Mode.{Mode};
ghost use Rattle.legal_days.specs.LegalDays.{RecordsAreLegal};
ghost use Rattle.order_checker.specs.Records.{verdict_of};
ghost use Rattle.order_checker.specs.declared.verdicts.Verdict.TheVariants.{Agrees};
ghost use Rattle.printed_records.specs.FitWindows.{DayFits};
ghost use Rattle.printed_records.specs.Modes.{prints_order};
ghost use Rattle.printed_records.specs.SmallTimes.{TimesAreSmall};
ghost use Rattle.routine_reader.specs.Scripts.{plain_script};
ghost use Rattle.routine_reader.specs.Sound.{IsSound};
ghost use Rattle.routine_reader.specs.declared.scripts.Script.{Script};
ghost use Rattle.std.specs.Prelude.{Bool, List, length, true, ◌≡◌};

/// The text of a day agrees with its script where each window fits: its runs have ended as their
/// lines may tell, its items may stand where they stand, and the serial execution of the order
/// answers and leaves what is printed.
pub fn fitting_day_agrees()
    ensures { (script : Script) (mode : Mode) (trace : Bool) (records : List WindowRecord)
        → IsSound (plain_script script) → prints_order mode ≡ true
        → length records ≡ length script.windows.items → DayFits script records
        → verdict_of script (day_text script records mode trace) ≡ Agrees }
{}

/// The record of a legal day agrees with its script, with a trace or without, under each model that
/// promises an order: first come, first served, unless it is `ev`.
pub fn legal_day_agrees()
    ensures { (script : Script) (mode : Mode) (trace : Bool) (records : List WindowRecord)
        → IsSound (plain_script script) → prints_order mode ≡ true
        → length records ≡ length script.windows.items → RecordsAreLegal script mode records
        → TimesAreSmall records → verdict_of script (day_text script records mode trace) ≡ Agrees }
{}
