// The script of a trial: a day that is made of a number.
#![tactic(auto)]

mod devices;
mod names;
mod routines;
mod scripts;
mod windows;

pub use scripts::trial_script;
