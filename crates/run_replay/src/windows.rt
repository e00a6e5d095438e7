//! A window, opened, replayed by its turns and its seed, and closed.
ghost use Rattle.std.specs.Prelude.{◌≡◌, ◌<◌, ◌≤◌, None, Some, IfErr, IfOk, ℕ, length};
ghost use Rattle.hub_core.specs.HubCalls.{WindowIsClosed};
ghost use Rattle.hub_core.specs.OpenHubs.{configuration_of};
ghost use Rattle.hub_core.specs.Steps.{not_quiet, opened};
ghost use Rattle.run_replay.specs.Players.{PlayerIsOpened};
ghost use Rattle.run_replay.specs.ReplayedWindows.{IsReplayed};

use crate::hands::Hands;
use crate::live_runs::with_run;
use crate::players::Player;
use device_states::Device;
use history_book::WindowRecord;
use home_types::NoMemory;
use hub_core::{Home, Hub, NotQuiet};
use std::alloc::Global;

impl<D: Device> Player<D> {
    /// Makes a player of a hub in which nothing was done yet, whose detector comes so often to each
    /// device.
    ///
    /// Takes all memory of the replay. Answers `NoMemory` where there is none to be had, and gives
    /// the hub back.
    pub fn open(alloc: Global, hub: Hub<D>, rounds: u32) -> Result<Player<D>, (Hub<D>, NoMemory)>
        requires fresh { configuration_of hub ≡ opened hub.setting hub.rounds }
        requires rounds { (d : ℕ) → d < length hub.setting.first
            → rounds ≤ (configuration_of hub).probes d }
        ensures opened { IfOk result (λ player. PlayerIsOpened hub rounds player) }
        ensures refused { IfErr result (λ refused. refused.0 ≡ hub) }
    {
        let count = hub.run_count() + 1;
        let Ok(mut actors) = Vec::with_capacity(alloc, count as usize) else {
            return Err((hub, NoMemory));
        };
        match Hands::open(alloc, hub, rounds) {
            Ok(hands) => {
                hands.kept_invariant();
                let mut runs = 0;
                'actors: for actor in 0..count {
                    if !hands.has_ended(actor) {
                        actors.push_reserved(actor);
                        runs = with_run(runs, actor);
                    }
                }
                Ok(Player {
                    hands,
                    actors,
                    runs,
                })
            }
            Err(refused) => {
                actors.destroy_empty();
                Err(refused)
            }
        }
    }

    /// Closes the window.
    ///
    /// Refused, and the player is given back, where a run has not ended or a device is out.
    pub fn close(self) -> Result<(Home<D>, WindowRecord), (Player<D>, NotQuiet)>
        ensures closed { IfOk result (λ closed. WindowIsClosed D.shows self.hub closed.0 closed.1) }
        ensures quiet { IfOk result (λ closed. not_quiet (configuration_of self.hub) ≡ None) }
        ensures same { IfErr result (λ refused. refused.0 ≡ self) }
        ensures refused { IfErr result
            (λ refused. not_quiet (configuration_of self.hub) ≡ Some refused.1) }
    {
        let Player {
            hands,
            actors,
            runs,
        } = self;
        match hands.close() {
            Ok(closed) => Ok(closed),
            Err((hands, why)) => Err((
                Player {
                    hands,
                    actors,
                    runs,
                },
                why,
            )),
        }
    }
}

/// Replays a window: plays these turns, goes on by draws from the seed until every actor has ended,
/// and closes it.
///
/// Answers `NoMemory` where there is none to be had, and gives the hub back.
pub fn replay_window<D: Device>(
    alloc: Global,
    hub: Hub<D>,
    turns: &[u32],
    seed: u64,
    rounds: u32,
) -> Result<(Home<D>, WindowRecord), (Hub<D>, NoMemory)>
    requires fresh { configuration_of hub ≡ opened hub.setting hub.rounds }
    requires rounds { (d : ℕ) → d < length hub.setting.first
        → rounds ≤ (configuration_of hub).probes d }
    ensures replayed { IfOk result
        (λ closed. IsReplayed D.shows hub turns.now seed rounds closed.0 closed.1) }
    ensures refused { IfErr result (λ refused. refused.0 ≡ hub) }
{
    hub.kept_invariant();
    let mut player = match Player::open(alloc, hub, rounds) {
        Ok(player) => player,
        Err(refused) => return Err(refused),
    };
    player.play(turns);
    player.finish(seed);
    player.kept_invariant();
    match player.close() {
        Ok(closed) => Ok(closed),
        Err((_player, _why)) => unreachable!(),
    }
}
