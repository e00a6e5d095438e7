ghost use Rattle.std.specs.Prelude.{◌≡◌};
ghost use Rattle.home_types.specs.Commands.{driven as value_driven, fails as command_fails, is_always as guard_is_always, reads as job_reads, register_after as register_then, writes as job_writes};

use home_types::{Answer, Command, Guard, Job, Kind, Value};

/// Whether the job senses its device.
pub fn reads(job: Job) -> bool
    ensures { result ≡ job_reads job }
{
    matches!(job, Job::Check(_) | Job::Load)
}

/// Whether the job drives its device.
pub fn writes(job: Job) -> bool
    ensures { result ≡ job_writes job }
{
    !reads(job)
}

/// Whether the guard holds of every register by its form.
pub fn is_always(guard: Guard) -> bool
    ensures { result ≡ guard_is_always guard }
{
    matches!(guard, Guard::Always)
}

/// The value to which the job drives a device of this kind, where the run's register is `register`.
/// 0 for a job that senses.
pub fn driven(kind: Kind, job: Job, register: Value) -> Value
    ensures { result ≡ value_driven kind job register }
{
    match job {
        Job::Set(value) => value,
        Job::Store => kind.nearest(register),
        Job::Check(_) | Job::Load => 0,
    }
}

/// What the answer to a job leaves in the register.
pub fn register_after(job: Job, answer: Answer, register: Value) -> Value
    ensures { result ≡ register_then job answer register }
{
    match (job, answer) {
        (Job::Load, Answer::Found(found)) => found,
        _ => register,
    }
}

/// Whether the command fails its run with this answer: it is a must, and was told `Down` or found
/// another value than it checks.
pub fn fails(command: Command, answer: Answer) -> bool
    ensures { result ≡ command_fails command answer }
{
    command.must
        && match (command.job, answer) {
            (_, Answer::Down) => true,
            (Job::Check(v), Answer::Found(x)) => x != v,
            _ => false,
        }
}
