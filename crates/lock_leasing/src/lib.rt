// Who may use a device next: accesses, holding, waits, leases, and the places of the schedulers.
#![tactic(auto)]

mod first_places;
mod laws;
mod leases;
mod purposes;
mod standings;
mod touches;

pub use first_places::first_place;
pub use laws::first_live_law;
pub use leases::{deadline, lends, overdue};
pub use purposes::Purpose;
pub use standings::Standing;
pub use touches::{Touch, first_holder, test_touch};
