//! Going along the accesses of a device, from one access to the next. Whoever does so keeps the
//! knot of where it stands, and gives it as `near`: any other knot, or none, costs a search, and
//! changes no answer.
ghost use Rattle.std.specs.Prelude.{◌≡◌};
ghost use Rattle.chain_arena.specs.Chains.{IsCursor, rest_of, values_of};
ghost use Rattle.lineage_table.specs.Accesses.{IsDisciplined, behind_run};
ghost use Rattle.lineage_table.specs.Knots.{IsKnotOf};

use crate::accesses::Access;
use crate::lineages::knot_of;
use chain_arena::{Chain, Knot};
use home_types::RunNo;

/// The knot of the run's access, where it has one. It is looked for immediately behind the knot
/// `near` first. The accesses are those of a table.
pub fn knot_from(accesses: &Chain<Access>, r: RunNo, near: Option<Knot>) -> Option<Knot>
    requires { IsDisciplined (values_of accesses.now.pairs) }
    ensures { IsKnotOf r.0 accesses.now.pairs result }
{
    if let Some(k) = near
        && accesses.has(k)
        && let Some(next) = accesses.after(k)
        && accesses.get(next).run == r
    {
        return Some(next);
    }
    knot_of(accesses, r)
}

/// The knot of the access immediately behind that of this run, of the first one where no run is
/// named. `None` where there is none, or where the run has no access. That of the run is looked for
/// at the knot `near` first. The accesses are those of a table.
pub fn knot_behind(accesses: &Chain<Access>, run: Option<RunNo>, near: Option<Knot>) -> Option<Knot>
    requires { IsDisciplined (values_of accesses.now.pairs) }
    ensures cursor { IsCursor result accesses.now.pairs }
    ensures rest { values_of (rest_of result accesses.now.pairs)
        ≡ behind_run run (values_of accesses.now.pairs) }
{
    accesses.kept_invariant();
    let Some(r) = run else {
        return accesses.first();
    };
    let k = knot_near(accesses, r, near)?;
    accesses.after(k)
}

/// The knot of the run's access, where it has one. It is looked for at the knot `near` first.
fn knot_near(accesses: &Chain<Access>, r: RunNo, near: Option<Knot>) -> Option<Knot>
    requires { IsDisciplined (values_of accesses.now.pairs) }
    ensures { IsKnotOf r.0 accesses.now.pairs result }
{
    if let Some(k) = near
        && accesses.has(k)
        && accesses.get(k).run == r
    {
        return Some(k);
    }
    knot_of(accesses, r)
}
