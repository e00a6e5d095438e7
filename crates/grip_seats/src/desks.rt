//! The desk, and the passes.
ghost use Rattle.std.specs.Prelude.{◌≡◌, IfOk, IfSome, None, Some, replicate, slice_get, slice_set, ℕ};

use crate::views::{ComesHome, CutClaim, EachOnce, GoesOut, SeatView};
use atomic_table::{Seat, Table};
use std::alloc::{AllocError, Global};
use std::marker::Model;

/// Knows what is out of each of its places.
///
/// Contracts see its name, and what is out of each place.
#[derive(Drop)]
pub struct Desk<T: Drop> {
    table: Table<(u64, T), SeatView<T>, u64, EachOnce, Global>,
    seat: Seat<(u64, T), SeatView<T>>,
}

/// The claim that something is out of a place of the desk of this name. Nobody else has it.
///
/// It has no bytes. One that is dropped is lost, and what it claims then never comes home.
#[derive(Drop)]
pub struct Pass<T> {
    seat: Seat<(u64, T), SeatView<T>>,
}

impl<T: Drop> Model for Desk<T> {
    ghost use Rattle.grip_seats.specs.Desks.{DeskState, IsDesk};

    ghost Value = { DeskState T };

    ghost view = { λ d. record { name = d.table.shared.table_id; out = d.seat.me.0.out } };

    ghost invariant = { λ d. IsDesk d.table.shared.table_id d.seat.table_id d.seat.me };
}

impl<T> Model for Pass<T> {
    ghost use Rattle.grip_seats.specs.Desks.{IsPass, PassState};

    ghost Value = { PassState T };

    ghost view = { λ p. record { name = p.seat.table_id; claim = p.seat.me.0.claim } };

    ghost invariant = { λ p. IsPass p.seat.me };
}

impl<T: Drop> Desk<T> {
    /// A desk with so many places, of which nothing is out.
    ///
    /// Answers an error where there is no memory. No other call takes any.
    pub fn open(alloc: Global, places: u64) -> Result<Desk<T>, AllocError>
        ensures { IfOk result (λ desk. desk.out ≡ replicate places None) }
    {
        let (table, seat) = Table::of_words(alloc, &[0], &places)?;
        Ok(Desk { table, seat })
    }

    /// This goes out of the place, of which nothing is out yet, and the pass claims it.
    pub fn go_out(&mut self, place: u64, what: T) -> Pass<T>
        requires home { slice_get self.old.out place ≡ Some None }
        ensures out { self.new.out ≡ slice_set self.old.out place (Some what) }
        ensures name { self.new.name ≡ self.old.name }
        ensures claim { result.claim ≡ Some (place, what) }
        ensures named { result.name ≡ self.old.name }
    {
        let Desk { table, seat } = self;
        let said = (place, what);
        table
            .shared
            .compare_exchange_with::<GoesOut>(seat, 0, 0, 0, &said);
        let seat = table.shared.split_seat::<CutClaim>(seat);
        Pass { seat }
    }

    /// What the pass claims comes home: it was out of its place, and is no more.
    pub fn come_home(&mut self, pass: Pass<T>)
        requires named { pass.name ≡ self.old.name }
        ensures was { IfSome pass.claim (λ c. slice_get self.old.out c.0 ≡ Some (Some c.1)) }
        ensures out { IfSome pass.claim (λ c. self.new.out ≡ slice_set self.old.out c.0 None) }
        ensures name { self.new.name ≡ self.old.name }
    {
        let Desk { table, seat } = self;
        let Pass { seat: other } = pass;
        table.shared.join_seat::<CutClaim>(seat, other);
        table.shared.load::<ComesHome>(seat, 0);
    }
}
