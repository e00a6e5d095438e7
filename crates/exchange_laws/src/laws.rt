//! Laws of exchanges: two items that stand next to each other in an order may change places where
//! they are apart. They share no device, and neither is a run that follows the other.
ghost use Rattle.command_rules.specs.Apart.{meet};
ghost use Rattle.command_rules.specs.ClosedSets.{Exchanged, are_apart, exchanged};
ghost use Rattle.command_rules.specs.Rosters.{Run};
ghost use Rattle.exchange_laws.specs.ExchangedOrders.{IsLegalUpToExchanges, IsRearranged, point_with_line, with_order};
ghost use Rattle.history_book.specs.Histories.{entries_of, line_of};
ghost use Rattle.history_book.specs.Settings.{Setting, is_weak};
ghost use Rattle.history_book.specs.WellFormed.{IsWellFormed};
ghost use Rattle.history_book.specs.declared.records.WindowRecord.{WindowRecord};
ghost use Rattle.home_types.specs.Numbers.{LinePlace};
ghost use Rattle.home_types.specs.declared.items.Item.{Item};
ghost use Rattle.legal_days.specs.LegalWindows.{IsLegalWindow, history_of};
ghost use Rattle.lock_leasing.specs.Configurations.{Configuration, point_of};
ghost use Rattle.lock_leasing.specs.Order.{OrderStands};
ghost use Rattle.lock_leasing.specs.Places.{MayBeOut};
ghost use Rattle.std.specs.Prelude.{IsTrue, List, false, ◌≡◌};

/// Reached by exchanges are exactly the orders that hold the same items, and any two that are not
/// apart in the same order.
pub fn reached_orders()
    ensures reached { (runs : List Run) (line next : List Item) → IsRearranged runs line next
        → Exchanged (meet runs) line next }
    ensures only { (runs : List Run) (line next : List Item) → Exchanged (meet runs) line next
        → IsRearranged runs line next }
{}

/// A legal window with its order so exchanged is legal, but that its order is reached so from the
/// line of its history: the items at `at` and the next place, which are apart, may change places,
/// then any two neighbours that are, and so on. And where an order is reached so, the window with
/// the line of its history for its order is a legal one.
pub fn legal_exchange()
    ensures itself { (w : Setting) (closed : WindowRecord) → IsLegalWindow w closed
        → IsLegalUpToExchanges w closed }
    ensures exchange { (w : Setting) (closed : WindowRecord) (at : LinePlace)
        → IsLegalUpToExchanges w closed
        → IsTrue (are_apart (meet w.runs) at closed.order.items)
        → IsLegalUpToExchanges w (with_order closed (exchanged at closed.order.items)) }
    ensures reached { (w : Setting) (closed : WindowRecord) (order : List Item)
        → IsLegalUpToExchanges w closed → Exchanged (meet w.runs) closed.order.items order
        → IsLegalUpToExchanges w (with_order closed order) }
    ensures back { (w : Setting) (closed : WindowRecord) → is_weak w.mode ≡ false
        → IsLegalUpToExchanges w closed
        → IsLegalWindow w (with_order closed (line_of w (history_of closed))) }
{}

/// Where the four clauses of the serial order hold of a line, they hold of it with the items at
/// `at` and the next place exchanged, which are apart, and of each line that is reached so.
///
/// The line is any line for which they hold. Of the configuration is asked that its history is well
/// formed, and that its grips may be out.
pub fn order_exchange()
    ensures exchange { (s : Configuration) (line : List Item) (at : LinePlace)
        → IsWellFormed s.setting (entries_of s.history) → MayBeOut (point_of s)
        → OrderStands (point_with_line s line)
        → IsTrue (are_apart (meet s.setting.runs) at line)
        → OrderStands (point_with_line s (exchanged at line)) }
    ensures reached { (s : Configuration) (line next : List Item)
        → IsWellFormed s.setting (entries_of s.history) → MayBeOut (point_of s)
        → OrderStands (point_with_line s line) → Exchanged (meet s.setting.runs) line next
        → OrderStands (point_with_line s next) }
{}
