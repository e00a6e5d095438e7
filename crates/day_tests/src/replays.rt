//! How many picks move in the smallest window.
use crate::hubs::fresh_hub;
use device_states::CalmBench;
use home_types::Scheduler;
use run_replay::players::Player;
use std::alloc::Global;
use std::process::Abort;

/// One run of one command.
const SCRIPT: &str = r#"{"safehome": 1,
 "devices": [{"name": "lamp", "states": ["off", "on"], "start": "off"}],
 "routines": [{"name": "light", "commands": [{"on": "lamp", "do": "set", "to": "on"}]}],
 "windows": [{"at": "2021-04-26T07:00:00", "runs": [{"routine": "light"}]}]}"#;

#[test]
fn one_command_takes_five_moves(rt: HostRuntime) {
    assert!(rt; moves_at_end(&rt, rt.alloc(), &[]) == Some(5));
    assert!(rt; moves_at_end(&rt, rt.alloc(), &[1, 1, 0, 1, 2, 1, 1, 1, 1]) == Some(5));
}

/// How many picks have moved when the run has ended: it arrives, is placed, takes the lamp, gives
/// it back, and commits. Any other pick finds an actor that has ended, or none. The window closes
/// then, as `replay_window` proves of each.
fn moves_at_end(rt: &impl Abort, alloc: Global, picks: &[u32]) -> Option<u64> {
    let hub = fresh_hub(alloc, SCRIPT, &mut CalmBench, Scheduler::Fcfs)?;
    let mut player = match Player::open(alloc, hub, 0) {
        Ok(player) => player,
        Err((hub, _)) => {
            drop(hub);
            return None;
        }
    };
    player.play(picks);
    player.finish(7);
    let moves = player.moves();
    match player.close() {
        Ok((home, record)) => {
            drop(home);
            drop(record);
            Some(moves)
        }
        Err((_player, _why)) => panic!(rt; "the window does not close"),
    }
}
