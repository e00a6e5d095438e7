//! What one command does to a device that stands so.
ghost use Rattle.std.specs.Prelude.{◌≡◌, IsTrue};
ghost use Rattle.home_types.specs.Commands.{command_effect, up_effect};
ghost use Rattle.serial_meaning.specs.Progress.{effect_of};

use home_types::{Answer, Guard, Job, Kind, Stand, Value};

/// What a command does: its answer, and then the register of its run and where its device stands.
#[derive(Clone, Copy)]
pub struct Outcome {
    pub answer: Answer,
    pub register: Value,
    pub stand: Stand,
}

/// The outcome of a command with this guard, job and register, on a device of this kind that stands
/// so. Where the guard does not hold it is skipped, on a device that is up or down.
pub fn outcome_of(kind: Kind, guard: Guard, job: Job, register: Value, stand: Stand) -> Outcome
    ensures { effect_of result ≡ command_effect kind guard job register stand }
{
    if !guard.holds(register) {
        return Outcome {
            answer: Answer::Skipped,
            register,
            stand,
        };
    }
    if !stand.up {
        return Outcome {
            answer: Answer::Down,
            register,
            stand,
        };
    }
    up_outcome(kind, job, register, stand)
}

/// The outcome of a job with this register, on a device of this kind that is up.
fn up_outcome(kind: Kind, job: Job, register: Value, stand: Stand) -> Outcome
    requires up { IsTrue stand.up }
    ensures { effect_of result ≡ up_effect kind job register stand.value }
{
    match job {
        Job::Set(value) => Outcome {
            answer: Answer::Fine,
            register,
            stand: Stand { value, up: true },
        },
        Job::Check(_) => Outcome {
            answer: Answer::Found(stand.value),
            register,
            stand,
        },
        Job::Load => Outcome {
            answer: Answer::Found(stand.value),
            register: stand.value,
            stand,
        },
        Job::Store => Outcome {
            answer: Answer::Fine,
            register,
            stand: Stand {
                value: kind.nearest(register),
                up: true,
            },
        },
    }
}
