//! What a chip with power has.
ghost use Rattle.eid_store.specs.Store.{fields_of};
ghost use Rattle.eid_chip.specs.Tries.{IsTryLeft};

use crate::session::Session;
use eid_sm::Channel;
use eid_store::Store;

/// The store that was mounted, the session, and the channel of secure messaging, where one is open.
#[derive(Drop)]
pub struct Running {
    pub store: Store,
    pub session: Session,
    pub channel: Option<Channel>,
    // A PACE with the PIN has come behind its first step only while a try is left.
    pub ghost try_left: { IsTryLeft session.run (fields_of store) },
}
