//! The steps of a row, read from its words.
use home_types::RunNo;

/// One of two hubs of the same window.
#[derive(Clone, Copy, Debug, PartialEq, Eq)]
pub enum Side {
    A,
    B,
}

/// A call of a hub at a moment, in ms.
#[derive(Clone, Copy, Debug, PartialEq, Eq)]
pub enum Step {
    /// The run takes its step. A grip that goes out makes its call.
    Take(Side, RunNo, u64),
    /// The run's grip comes back.
    Give(Side, RunNo, u64),
}

/// Reads a step, as `a take 1 0` and `b give 1 100`: the hub, the call, the run and the moment.
pub fn read_step(text: &str) -> Option<Step> {
    let mut words = text.split_whitespace();
    let side = match words.next()? {
        "a" => Side::A,
        "b" => Side::B,
        _ => return None,
    };
    let call = words.next()?;
    let run = RunNo(words.next()?.parse::<u32>().ok()?);
    let moment = words.next()?.parse::<u64>().ok()?;
    match call {
        "take" => Some(Step::Take(side, run, moment)),
        "give" => Some(Step::Give(side, run, moment)),
        _ => None,
    }
}
