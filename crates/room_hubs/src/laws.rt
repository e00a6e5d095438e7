//! What is true of the rooms of a home, and of each order that is merged from theirs. No function
//! here does any work: its contract is a law.
ghost use Rattle.command_rules.specs.Rosters.{Run};
ghost use Rattle.home_types.specs.declared.kinds.Kind.{Kind};
ghost use Rattle.home_types.specs.declared.worlds.Stand.{Stand};
ghost use Rattle.room_hubs.specs.Merges.{HasOwnOrder, InStep, IsMerge, Merge, PartHome, RoomOrders, home_execution, home_order, joined_merge, joined_order, order_of_room, own_order, room_execution, room_in};
ghost use Rattle.room_hubs.specs.Numbers.{Room, room_home, room_kinds};
ghost use Rattle.room_hubs.specs.RoomScripts.{own_script};
ghost use Rattle.room_hubs.specs.Rooms.{rooms_of};
ghost use Rattle.room_hubs.specs.Splits.{IsParted, room_at, script_split};
ghost use Rattle.routine_reader.specs.Rosters.{kinds_of, script_runs, start_home};
ghost use Rattle.routine_reader.specs.Scripts.{plain_script};
ghost use Rattle.routine_reader.specs.Sound.{IsSound};
ghost use Rattle.routine_reader.specs.declared.scripts.Script.{Script};
ghost use Rattle.std.specs.Prelude.{◌≡◌, ℕ, All, List, Ok, length};

/// Where no run crosses rooms, the rooms of a window part the home.
pub fn rooms_part()
    ensures { (room_of : List ℕ) (runs : List Run) (home : List Stand)
        → length home ≡ length room_of → IsParted room_of runs
        → PartHome (room_at room_of runs) runs home }
{}

/// A window that is split has no run that crosses rooms: its rooms part the home.
pub fn split_parts()
    ensures { (script : Script) (window : ℕ) (all : List Room)
        → IsSound (plain_script script) → script_split script window ≡ Ok all
        → IsParted (rooms_of script).room_of (script_runs script window) }
{}

/// The script of a room says of each window, of the kinds and of the start what the room has of the
/// home's.
pub fn own_scripts()
    ensures runs { (script : Script) (k window : ℕ)
        → script_runs (own_script script k) window
        ≡ (room_at (rooms_of script).room_of (script_runs script window) k).own_runs }
    ensures kinds { (script : Script) (k window : ℕ) → kinds_of (own_script script k) ≡ room_kinds
        (room_at (rooms_of script).room_of (script_runs script window) k) (kinds_of script) }
    ensures start { (script : Script) (k window : ℕ) → start_home (own_script script k) ≡ room_home
        (room_at (rooms_of script).room_of (script_runs script window) k) (start_home script) }
{}

/// Whatever order is merged from orders of the rooms, its serial execution goes in step with
/// theirs.
pub fn merged()
    ensures { (rooms : ℕ → Room) (runs : List Run) (kinds : List Kind) (home : List Stand)
        (merge : Merge) → PartHome rooms runs home → IsMerge rooms merge → InStep rooms
        (home_execution rooms runs kinds home merge) (room_execution rooms kinds home merge) }
{}

/// The joined order is such a merge, in which each room has its own order.
pub fn joined_keeps()
    ensures order { (orders : RoomOrders)
        → joined_order orders ≡ home_order (room_in orders) (joined_merge 0 orders) }
    ensures own { (orders : RoomOrders) (k : ℕ)
        → own_order k (joined_merge 0 orders) ≡ order_of_room orders k }
    ensures merge { (orders : RoomOrders)
        → All HasOwnOrder orders → IsMerge (room_in orders) (joined_merge 0 orders) }
{}
