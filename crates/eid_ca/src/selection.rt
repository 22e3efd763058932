//! The body that selects a protocol by the object 80 alone (BSI TR-03110-3, MSE:Set AT): chip authentication, or
//! another protocol that is selected in the same way.
ghost use Rattle.std.specs.Prelude.{◌≡◌, ℕ, List, ◌↔◌, Some, is_some, option_map};
ghost use Rattle.eid_tlv.specs.Lists.{HasOnly};
ghost use Rattle.eid_ca.specs.Selections.{chosen_in, named_in};

use crate::protocol::Protocol;
use eid_tlv::only_value;

const PROTOCOL: u16 = 0x80;

/// The bytes of the identifier that a selection names: the value of its object 80. `None` comes exactly where the
/// body is no list of data objects, or 80 does not stand in it exactly once; other tags are passed over.
pub fn protocol_named(body: &[u8]) -> Option<&[u8]>
    ensures { option_map (λ identifier. identifier.now) result ≡ named_in body.now }
{
    only_value(body, PROTOCOL)
}

/// The definition of the identifier that a selection names gives exactly the value of its one object 80.
pub fn law_named()
    ensures { (body value : List ℕ) → named_in body ≡ Some value ↔ HasOnly 0x80 value body }
{}

/// Whether the body selects chip authentication by a protocol that the chip has.
pub fn names_chip_authentication(body: &[u8]) -> bool
    ensures { result ≡ is_some (chosen_in body.now) }
{
    read_selection(body).is_some()
}

/// The protocol of chip authentication that the body selects, if it selects one.
pub(crate) fn read_selection(body: &[u8]) -> Option<Protocol>
    ensures { result ≡ chosen_in body.now }
{
    let Some(identifier) = protocol_named(body) else {
        return None;
    };
    Protocol::with_bytes(identifier)
}
