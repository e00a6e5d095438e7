//! The laws of the bytes of calls.
ghost use Rattle.std.specs.Prelude.{◌≡◌, ◌<◌, ◌++◌, ◌/◌, All, List, take, ℕ};
ghost use Rattle.logged_calls.specs.CallBytes.{call_size, calls_bytes, calls_from, good_bytes};
ghost use Rattle.logged_calls.specs.Calls.{IsLoggable};
ghost use Rattle.logged_calls.specs.declared.calls.Logged.{Logged};

/// From the bytes of some calls just these calls are read. Where anything is cut off their end, a
/// first part of the calls is read: those whose bytes are all left. And where other bytes follow
/// them, the calls are read, and then those of the other bytes: so bytes that were handed out one
/// after another are read as one log.
pub fn same_bytes()
    ensures all { (calls : List Logged) → All IsLoggable calls
        → calls_from (calls_bytes calls) ≡ calls }
    ensures cut { (calls : List Logged) (n : ℕ) → All IsLoggable calls
        → calls_from (take n (calls_bytes calls)) ≡ take (n / call_size) calls }
    ensures more { (calls : List Logged) (bytes : List ℕ) → All IsLoggable calls
        → calls_from (calls_bytes calls ++ bytes) ≡ calls ++ calls_from bytes }
{}

/// The good ones of any bytes are the bytes of the calls that are read from them. So two logs from
/// which the same calls are read have the same good bytes.
pub fn good_bytes_are_calls()
    ensures { (bytes : List ℕ) → All (λ b. b < 256) bytes
        → calls_bytes (calls_from bytes) ≡ take (good_bytes bytes) bytes }
{}
