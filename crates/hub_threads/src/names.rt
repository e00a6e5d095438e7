//! The name of a window.
ghost use Rattle.grip_seats.specs.Desks.{DeskName};
ghost use Rattle.hub_threads.specs.Names.{NamedWindow};

use std::marker::Brand;
use std::sync::ledger::Ledger;

/// What the hub of a window keeps from its opening on, and between which moments the window's clock
/// answers. Whatever carries the name of a window is of that window, and each pass of its grips is
/// of the window's desk.
pub trait Name: Ledger {
    ghost window: { NamedWindow };

    ghost desk: { DeskName };
}

/// The window here is none: the proof of each call that passes `Brand` picks its own.
impl Name for Brand {
    ghost use Rattle.grip_seats.specs.Desks.{no_desk};
    ghost use Rattle.hub_threads.specs.Names.{no_window};

    ghost window = { no_window };

    ghost desk = { no_desk };
}
