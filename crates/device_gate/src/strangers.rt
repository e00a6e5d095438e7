//! Why a grip is not taken back: what is kept of its device.
use crate::slips::Slip;

/// Why a grip is not taken back: it is not the one that is out.
#[derive(Clone, Copy, Debug, PartialEq, Eq)]
pub struct Stranger {
    /// The slip with which the grip's device is out, `None` where it is home or none of the home.
    pub kept: Option<Slip>,
    /// The slip of the grip.
    pub told: Slip,
}
