//! The parts by which a hub decides: table, line, history and roster.
use command_rules::IndexedRoster;
use history_book::Book;
use lineage_table::Table;
use serial_line::Line;
use std::marker::Model;

/// What the steps of a window are decided by: its lineage table, its line, its history and its
/// roster, with the footprints of its runs.
///
/// A call that takes one asks that the four belong to one window.
#[derive(Drop)]
pub struct Standing<'a> {
    pub table: &'a Table,
    pub line: &'a Line,
    pub book: &'a Book,
    pub roster: &'a IndexedRoster,
}

impl<'a> Model for Standing<'a> {
    ghost use Rattle.command_rules.specs.Rosters.{runs_of};
    ghost use Rattle.history_book.specs.contracts.entries.Kept as the_entry;
    ghost use Rattle.lineage_table.specs.contracts.accesses.Access as the_access;
    ghost use Rattle.lock_leasing.specs.Standings.{WindowParts};
    ghost use Rattle.serial_line.specs.KeptRuns.{run_code};
    ghost use Rattle.serial_line.specs.Marks.{mark_code};
    ghost use Rattle.std.specs.Coded.{codes};

    ghost Value = { WindowParts };

    ghost coded = { Prim.hlevel
        (codes, mark_code, run_code, the_access.the_row.coded, the_entry.the_row.coded) };

    ghost view = { λ s. record {
      table = s.table.now;
      line = s.line.now.marks;
      history = s.book.now.items;
      runs = runs_of s.roster.now;
    } };
}
