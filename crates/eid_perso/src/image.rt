//! The image of a configuration.
ghost use Rattle.std.specs.Prelude.{◌≡◌, Some, IfOk, length};
ghost use Rattle.eid_store.specs.Stands.{stands};
ghost use Rattle.eid_perso.specs.Config.{IsWhole, config_view, full_record};
ghost use Rattle.eid_perso.specs.Image.{image};

use crate::config::Config;
use eid_base::NoMemory;
use eid_store::put_new;
use std::alloc::Global;

/// The cells of an image.
const CELLS: usize = 65_536;

/// The image of a configuration that `read_config` gives: new cells with its record, in the layout that it names.
///
/// # Errors
/// `NoMemory` where memory for the image is refused.
pub fn image_of(alloc: Global, c: &Config) -> Result<Vec<u8>, NoMemory>
    requires { IsWhole (config_view c.now) }
    ensures bytes { IfOk result (λ written. written.items ≡ image (config_view c.now)) }
    ensures size { IfOk result (λ written. length written.items ≡ 65536) }
    ensures stands { IfOk result (λ written. stands written.items ≡ Some (full_record (config_view c.now))) }
{
    let mut written = vec![in alloc; 0; CELLS]?;
    put_new(
        c.layout,
        &c.kept,
        c.files.as_slice(),
        written.as_mut_slice(),
    );
    Ok(written)
}
