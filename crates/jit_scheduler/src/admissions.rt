//! Just-in-time admission: where a run is placed, or which device it is denied.
ghost use Rattle.std.specs.Prelude.{◌≡◌};
ghost use Rattle.jit_scheduler.specs.Admissions.{IsAdmissionOf, IsPlaceOfLine, IsPlacingOf, MayAdmit, answer_by};

use crate::answers::Admit;
use crate::denials::{Denial, find_denial};
use home_types::RunNo;
use lock_leasing::{Standing, first_place};

/// How long a run that is denied waits for a better place than the end of the line, in ms.
const PATIENCE: u64 = 10_000;

/// Whether `r`, which arrived at the moment `arrived`, is placed at the moment `moment`, and where;
/// both in ms.
///
/// A device of `r` is denied by the first live run that stands before the first place and holds it;
/// else, where `r` begins on it with a read, by the live run that has the effective write there.
/// Where none is denied the answer is the first place. Else it is the end of the line, when `r` has
/// waited for 10 s, and before that the smallest device that is denied, with its run.
///
/// The four parts belong to one window, whose model is not the weak one, and `r` has arrived and is
/// not placed. Takes no memory, and reads of the history no more than the ends and the dooms of
/// runs.
pub fn admit(s: &Standing, r: RunNo, arrived: u64, moment: u64) -> Admit
    requires { MayAdmit s.now r.0 arrived }
    ensures placing { IsPlacingOf s.now r.0 arrived moment result }
    ensures exact { IsAdmissionOf s.now r.0 arrived moment result }
    ensures within { IsPlaceOfLine s.now.line result }
{
    let place = first_place(s, r);
    let denial = find_denial(s, r, place);
    answer_by(place, denial, arrived, moment)
}

/// The answer where this is the first place and this the first denial.
fn answer_by(place: u32, denial: Option<Denial>, arrived: u64, moment: u64) -> Admit
    ensures { result ≡ answer_by place denial arrived moment }
{
    match denial {
        None => Admit::At(place),
        Some(_) if moment.saturating_sub(arrived) >= PATIENCE => Admit::Patience,
        Some(denial) => Admit::Denied(denial.device, denial.run),
    }
}
