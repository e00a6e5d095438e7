//! What a file of slots holds.
ghost use Rattle.std.specs.Prelude.{◌≡◌, ◌≤◌, IfErr, IfOk, Err, length};
ghost use Rattle.home_journal.specs.Journals.{KnowsKept, last_kept};
ghost use Rattle.home_journal.specs.KeptStates.{kept_states};
ghost use Rattle.home_journal.specs.Slots.{body_size};
ghost use Rattle.home_types.specs.Limits.{most_devices, most_windows};
ghost use Rattle.slot_disks.specs.SlotFiles.{IsFound};

use crate::states::read_state;
use home_types::{Kind, World};
use slot_disks::{Found, Layout};

/// Reads the slots that are open, one after another; the state of the last one is in `last` then.
/// Answers the place of the first that is not good, where there is one.
pub(crate) fn scan(
    bytes: &[u8],
    layout: Layout,
    kinds: &[Kind],
    last: &mut World,
) -> Result<Found, u32>
    requires size { layout.size ≡ body_size (length kinds.now) }
    requires devices { length kinds.now ≤ most_devices }
    requires windows { layout.most ≤ most_windows }
    requires blank { length last.old.devices.items ≡ length kinds.now }
    ensures found { IfOk result (λ found. IsFound layout.size layout.most bytes.now found) }
    ensures good { IfOk result (λ found. KnowsKept kinds.now layout.most bytes.now found.count
        (last_kept found.count last.new.devices.items)) }
    ensures damaged { IfErr result
        (λ place. kept_states kinds.now layout.most bytes.now ≡ Err place) }
    ensures blank { length last.new.devices.items ≡ length kinds.now }
{
    let size = layout.size as usize;
    let mut rest = bytes;
    'slots: for place in 0..layout.most {
        let [gate, behind @ ..] = rest else {
            return Ok(Found {
                count: place,
                is_shut: false,
            });
        };
        if *gate != 1 {
            return Ok(Found {
                count: place,
                is_shut: true,
            });
        }
        if behind.len() <= size {
            return Ok(Found {
                count: place,
                is_shut: false,
            });
        }
        if !read_state(&behind[..size], place as u32 + 1, kinds, last) {
            return Err(place as u32);
        }
        rest = &behind[size..];
    }
    Ok(Found {
        count: layout.most,
        is_shut: false,
    })
}
