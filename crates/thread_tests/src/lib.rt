//! Tests of windows in threads, by public calls alone.
#![tactic(auto)]

#[cfg(test)]
mod windows;
