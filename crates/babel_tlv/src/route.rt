use crate::ann::Ann;
use crate::key::Key;
use babel_prefix::{Addr, Family, Prefix};

/// The place where `State::step_into` writes what an Update announces or retracts: moving this
/// through each layer, for each TLV, took a third of the time of reading.
#[derive(Clone, Copy)]
pub struct Route {
    /// What the route is for.
    pub key: Key,
    /// What was announced for it, if the kind is `Announce`.
    pub ann: Ann,
}

impl Route {
    /// A place where nothing was written. No event speaks of it.
    pub fn unwritten() -> Route {
        let everywhere = Prefix::whole(Family::V4);
        Route {
            key: Key::new(everywhere, everywhere).unwrap(),
            ann: Ann::new([1; 8], 0, 0, everywhere.addr()).unwrap(),
        }
    }
}
