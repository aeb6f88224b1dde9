// Releasing one page.
#![tactic(auto)]

pub mod release;

use placing::Spot;

// What a release does: an entry gets this availability, or the NFL is regathered.
// An enum of its own and no Option: it says which of two deeds is done, and `None` would name neither.
#[derive(Clone, Copy)]
pub enum Plan {
    Mark(Spot, u64),
    Regather,
}
