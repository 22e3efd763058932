ghost use Rattle.std.specs.Prelude.{◌≡◌, Some, IfSome, map};
ghost use Rattle.std.specs.List.{find};
ghost use Rattle.std.specs.Str.{bytes_eq};
ghost use Rattle.eid_bits.specs.Identifiers.{known_bytes};
ghost use Rattle.eid_bits.specs.declared.identifier.Known.{Known};

use crate::identifier::{Known, TABLE};

/// The identifier with these bytes. `None` comes exactly where they are those of none.
#[tactic(auto, using(crate::proofs::Distinct::only_one))]
pub fn known(bytes: &[u8]) -> Option<Known>
    ensures found { IfSome result (λ identifier. known_bytes identifier ≡ bytes.now) }
    ensures only { (identifier : Known) → known_bytes identifier ≡ bytes.now → result ≡ Some identifier }
{
    first_with(&TABLE, bytes)
}

/// No two identifiers have the same bytes.
pub fn law_one_identifier()
    ensures { (a b : Known) → known_bytes a ≡ known_bytes b → a ≡ b }
{}

/// The first identifier of a table with these bytes.
fn first_with(table: &[(Known, &[u8])], bytes: &[u8]) -> Option<Known>
    ensures found { IfSome result (λ identifier. known_bytes identifier ≡ bytes.now) }
    ensures first { result ≡ find (λ identifier. bytes_eq (known_bytes identifier) bytes.now) (map (λ row. row.0) table.now) }
{
    table
        .iter()
        .map(|row| row.0)
        .find(|identifier| identifier.bytes() == bytes)
}
