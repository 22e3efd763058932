//! The command `make`.
ghost use Rattle.std.specs.Prelude.{◌≡◌, ◌≢◌};
ghost use Rattle.eid_base.specs.Seen.{SinkSeen};
ghost use Rattle.eid.specs.Commands.{Make};
ghost use Rattle.eid.specs.Works.{Meets};

use eid_base::Folder;
use eid_inputs::{Exit, load, store_file};
use eid_perso::{Config, image_of};
use std::alloc::Global;

/// Makes the image of a configuration: reads and checks the configuration, and stores the image. Prints
/// nothing, whatever the sink is.
pub fn make<F: Folder>(alloc: Global, config: &str, image: &str, folder: &mut F) -> Exit
    ensures meets { (sink : SinkSeen) → Meets (Make config.now image.now) (F.seen folder.old) (F.seen folder.new) sink sink result }
    ensures faults { result ≢ Exit.FileFault → (F.seen folder.new).faults ≡ (F.seen folder.old).faults }
{
    let config = match load::<Config, F>(alloc, folder, config) {
        Ok(config) => config,
        Err(exit) => return exit,
    };
    let Ok(cells) = image_of(alloc, &config) else {
        return Exit::NoMemory;
    };
    store_file(folder, image, cells.as_slice())
}
