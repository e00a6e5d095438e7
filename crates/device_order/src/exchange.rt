//! The exchange of two neighbours of an order that share no device.
ghost use Rattle.std.specs.Prelude.{List, ◌++◌, ◌∷◌};
ghost use Rattle.home_types.specs.declared.items.Item.{Item};
ghost use Rattle.home_types.specs.declared.kinds.Kind.{Kind};
ghost use Rattle.home_types.specs.declared.worlds.Stand.{Stand};
ghost use Rattle.command_rules.specs.Rosters.{Run};
ghost use Rattle.command_rules.specs.Serial.{serial_execution};
ghost use Rattle.device_order.specs.Exchanges.{SameOutcome, ShareNoDevice};

/// Two neighbours of an order that share no device may be exchanged: the serial execution is
/// refused or not as before, each run answers the same, and the home ends in the same state.
pub fn neighbours_exchange()
    ensures { (runs : List Run) (kinds : List Kind) (home : List Stand) (front rest : List Item)
        (a b : Item) → ShareNoDevice runs a b
        → SameOutcome (serial_execution runs kinds home (front ++ a ∷ b ∷ rest))
        (serial_execution runs kinds home (front ++ b ∷ a ∷ rest)) }
{}
