//! The line of a board, behind the total of a day.
ghost use Rattle.hub_commands.specs.Boards.{board_line};
ghost use Rattle.std.specs.Prelude.{◌≡◌, IfOk};

use home_types::{Bytes, NoMemory};
use status_board::Counts;
use std::alloc::Global;

/// Writes the line of these counts.
#[tactic(auto, unfolding(crate::specs::Boards::board_line))]
pub fn board_line(alloc: Global, counts: &Counts) -> Result<Bytes, NoMemory>
    ensures { IfOk result (λ b. b ≡ board_line counts.now) }
{
    let Counts {
        windows,
        runs,
        committed,
        aborted,
        ..
    } = *counts;
    match format!(in alloc;
        "board windows {windows} runs {runs} committed {committed} aborted {aborted}\n"
    ) {
        Ok(text) => Ok(Bytes::from_text(text)),
        Err(_) => Err(NoMemory),
    }
}
