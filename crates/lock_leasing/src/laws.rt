//! A law of waits: a function with no work in it, whose contract is the law.

ghost use Rattle.std.specs.Prelude.{◌≡◌, [], ℕ, true};
ghost use Rattle.history_book.specs.Readings.{Reading, is_live};
ghost use Rattle.lock_leasing.specs.Configurations.{Point};
ghost use Rattle.lock_leasing.specs.FirstRuns.{IsFirstLive, WaitsForNone};
ghost use Rattle.lock_leasing.specs.Order.{is_in_line};
ghost use Rattle.lock_leasing.specs.Words.{live_before};

/// A run that stands behind no live run waits for no other: at no device is it behind one, no
/// command would read the write of one, and under no model must one end first. Where some run of
/// the line is live, one is the first live run, and stands so.
pub fn first_live_law()
    ensures waits { (p : Point) (r : ℕ) → live_before p.reading r ≡ [] → WaitsForNone p r }
    ensures found { (n : Reading) (r : ℕ) → is_in_line n r ≡ true → is_live n r ≡ true
        → (q : ℕ) × IsFirstLive n n.line q }
{}
