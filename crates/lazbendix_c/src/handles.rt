//! The handle that a C program holds, and the heap block behind it.
ghost use Rattle.std.specs.Prelude.{◌≡◌, ◌≢◌, ◌==◌, None, Some, IfSome, IfNone, IsSome, is_some};
ghost use Rattle.std.specs.declared.option.Option.{Option};
ghost use Rattle.std.specs.Coded.{coded_option};
ghost use Rattle.std.specs.Box.Ownership.{box_owns};
ghost use Rattle.lazbendix_c.specs.Owned.{block_owns, open_mark};
ghost use Rattle.home_states.specs.LiveHomes.{LiveState};
ghost use Rattle.home_states.specs.contracts.homes.LiveHome.{the_row};

use home_states::LiveHome;
use std::alloc::{Allocator, Global};
use std::marker::Model;
use std::{mem, ptr};

/// The mark of an open handle. A handle with any other mark is closed, whatever else stands in it.
const OPEN: u64 = 0x6c61_7a62_656e_6469;

/// A box as its pointer.
pub(crate) struct HeldBox<T, A: Allocator> {
    pub(crate) at: *mut T,
    pub(crate) alloc: A,
    pub(crate) ghost value: { T },
}

impl<T, A: Allocator> Model for HeldBox<T, A> {
    ghost also_owns = { λ l. box_owns (A.dealloc_token l.alloc) T.row l.at l.value };
}

impl<T: Drop, A: Allocator> HeldBox<T, A> {
    pub(crate) fn of(value: Box<T, A>) -> HeldBox<T, A>
        ensures { result.value ≡ value.value }
    {
        let (at, alloc) = Box::into_raw_with_allocator(value);
        HeldBox { at, alloc }
    }

    pub(crate) fn into_box(self) -> Box<T, A>
        ensures { result.value ≡ self.value }
    {
        let HeldBox { at, alloc } = self;
        unsafe { Box::from_raw(alloc, at) }
    }
}

/// The block of a home, or none.
#[repr(C)]
pub struct HomeBlock {
    at: *mut (),
    ghost state: { Option LiveState } by { coded_option (the_row).coded },
}

impl Model for HomeBlock {
    ghost also_owns = { λ b. block_owns b.at b.state };
}

// It may go to another thread, since its state and its allocator may.
unsafe impl Send for HomeBlock {}

impl HomeBlock {
    /// No block.
    fn none() -> HomeBlock
        ensures { result.state ≡ None }
    {
        HomeBlock {
            at: ptr::null_mut(),
        }
    }

    /// The block of this state.
    fn of(held: HeldBox<LiveHome, Global>) -> HomeBlock
        ensures { result.state ≡ Some held.value }
    {
        let HeldBox { at, alloc: _ } = held;
        HomeBlock { at: at as *mut () }
    }

    /// Lets go of it where there is none.
    fn leave(self)
        requires { self.state ≡ None }
    {
        let HomeBlock { at: _ } = self;
    }

    /// The state in the block.
    fn into_held(self, alloc: Global) -> HeldBox<LiveHome, Global>
        requires { self.state ≢ None }
        ensures { self.state ≡ Some result.value }
    {
        let HomeBlock { at } = self;
        HeldBox {
            at: at as *mut LiveHome,
            alloc,
        }
    }
}

/// What a C program holds of an open state.
#[repr(C)]
pub struct Handle {
    mark: u64,
    home: HomeBlock,
    ghost agree: { is_some home.state ≡ (mark == open_mark) },
}

impl Handle {
    /// A handle that is closed.
    fn closed() -> Handle
        ensures { result.home.state ≡ None }
    {
        Handle {
            mark: 0,
            home: HomeBlock::none(),
        }
    }

    /// The handle of this state.
    fn of(state: Box<LiveHome>) -> Handle
        ensures { result.home.state ≡ Some state.value }
    {
        Handle {
            mark: OPEN,
            home: HomeBlock::of(HeldBox::of(state)),
        }
    }

    /// Takes the state out of an open handle, and leaves the handle closed. A closed one stays as
    /// it is.
    pub(crate) fn take(&mut self, alloc: Global) -> Option<Box<LiveHome>>
        ensures open { IfSome result (λ taken. self.old.home.state ≡ Some taken.value) }
        ensures left { IfSome result (λ _. self.new.home.state ≡ None) }
        ensures closed { IfNone result (self.old.home.state ≡ None) }
        ensures same { IfNone result (self.new ≡ self.old) }
    {
        if self.mark != OPEN {
            return None;
        }
        let Handle { mark: _, home } = mem::replace(self, Handle::closed());
        Some(home.into_held(alloc).into_box())
    }

    /// Puts a state into a closed handle.
    pub(crate) fn put(&mut self, state: Box<LiveHome>)
        requires { self.old.home.state ≡ None }
        ensures { self.new.home.state ≡ Some state.value }
    {
        let Handle { mark: _, home } = mem::replace(self, Handle::of(state));
        home.leave();
    }
}
