//! Reading the input files.
ghost use Rattle.std.specs.Prelude.{◌≡◌, ◌≤◌, ◌⊎◌, ℕ, List, None, Some, Result, Ok, length, take, is_some, IsTrue, IsSome, IfOk, IfErr, IsErrOf};
ghost use Rattle.eid_base.specs.Faults.{Rose};
ghost use Rattle.eid_base.specs.Seen.{SameFiles, front_of};
ghost use Rattle.eid_store.specs.Stands.{stands};
ghost use Rattle.eid_inputs.specs.declared.exit.Exit.{Exit as ExitSeen};
ghost use Rattle.eid_inputs.specs.Images.{record_of};
ghost use Rattle.eid_inputs.specs.Inputs.{image_in, in_file};
ghost use Rattle.eid_inputs.specs.Loads.{IsUnread, IsRefused, IsFirstRefused, IsBad};

use crate::exit::Exit;
use eid_base::{Folder, IoError, NoMemory};
use eid_cells::{Eeprom, MemoryEeprom};
use eid_store::Store;
use std::alloc::Global;

/// How many bytes an image has.
pub const IMAGE_SIZE: usize = 65536;

/// How many bytes the longest script has, and the longest text of answers, configuration or plan.
const TEXT_LIMIT: usize = 1_048_576;

/// Something that the program reads from a text.
pub trait Input: Sized {
    // What contracts see of it.
    ghost Plain: { Type 0 };

    ghost plain: { Self → Plain };

    // What a text says, or the exit that refuses it.
    ghost said: { List ℕ → Result Plain ExitSeen };

    // What is true of all that is read.
    ghost valid: { Self → Type 0 };

    /// A text that is too long says what its front does: it is refused.
    fn law_front()
        ensures { (whole : List ℕ) → said (take 1048577 whole) ≡ said whole };

    /// Reads a text.
    fn read(alloc: Global, text: &[u8]) -> Result<Self, Exit>
        ensures found { IfOk result (λ input. said text.now ≡ Ok (plain input)) }
        ensures valid { IfOk result valid }
        ensures refused { IfErr result (λ e. (e ≡ Exit.NoMemory) ⊎ IsBad e (said text.now)) };
}

/// The first `limit + 1` bytes of a file, or all where there are fewer.
fn read_front<F: Folder>(
    alloc: Global,
    folder: &mut F,
    name: &str,
    limit: usize,
) -> Result<Vec<u8>, Exit>
    requires { limit ≤ 16777216 }
    ensures found { IfOk result (λ bytes. IsTrue (F.seen folder.old).tells → front_of (F.seen folder.old) name.now limit ≡ Some bytes.items) }
    ensures failed { IfErr result (IsUnread (F.seen folder.old).tells ((F.seen folder.old).file name.now) (Rose (F.seen folder.old).faults
        (F.seen folder.new).faults)) }
    ensures same { SameFiles (F.seen folder.old) (F.seen folder.new) }
    ensures later { (F.seen folder.old).faults ≤ (F.seen folder.new).faults }
    ensures still { ¬ IsErrOf result Exit.FileFault → (F.seen folder.new).faults ≡ (F.seen folder.old).faults }
{
    match folder.read(alloc, name, limit) {
        Ok(bytes) => Ok(bytes),
        Err(IoError::NoMemory) => Err(Exit::NoMemory),
        Err(_) => Err(Exit::FileFault),
    }
}

/// Whether cells stand for a record. They are mounted on a device of their own.
fn is_record(alloc: Global, cells: &[u8]) -> Result<bool, NoMemory>
    requires { length cells.now ≡ 65536 }
    ensures { IfOk result (λ b. b ≡ is_some (stands cells.now)) }
{
    let mut device = MemoryEeprom::new(Vec::from_slice(alloc, cells)?);
    device.power(true);
    Ok(Store::mount(&mut device).is_ok())
}

/// The image of these bytes.
fn image_of(alloc: Global, bytes: Vec<u8>) -> Result<Vec<u8>, Exit>
    ensures image { IfOk result (λ image. (image ≡ bytes) × (length bytes.items ≡ 65536) × IsSome (stands bytes.items)) }
    ensures refused { IfErr result (λ e. (e ≡ Exit.NoMemory) ⊎ ((e ≡ Exit.BadImage) × (record_of bytes.items ≡ None))) }
{
    if bytes.len() != IMAGE_SIZE {
        return Err(Exit::BadImage);
    }
    match is_record(alloc, bytes.as_slice()) {
        Ok(true) => Ok(bytes),
        Ok(false) => Err(Exit::BadImage),
        Err(_) => Err(Exit::NoMemory),
    }
}

/// Reads an image: cells that stand for a record.
pub fn load_image<F: Folder>(alloc: Global, folder: &mut F, name: &str) -> Result<Vec<u8>, Exit>
    ensures stands { IfOk result (λ cells. (length cells.items ≡ 65536) × IsSome (stands cells.items)) }
    ensures held { IfOk result (λ cells. IsTrue (F.seen folder.old).tells → (F.seen folder.old).file name.now ≡ Some cells.items) }
    ensures refused { IfErr result (λ e. IsRefused (F.seen folder.old).tells (image_in ((F.seen folder.old).file name.now)) (Rose (F.seen folder.old).faults
        (F.seen folder.new).faults) e) }
    ensures same { SameFiles (F.seen folder.old) (F.seen folder.new) }
    ensures later { (F.seen folder.old).faults ≤ (F.seen folder.new).faults }
    ensures still { ¬ IsErrOf result Exit.FileFault → (F.seen folder.new).faults ≡ (F.seen folder.old).faults }
{
    let bytes = read_front(alloc, folder, name, IMAGE_SIZE)?;
    image_of(alloc, bytes)
}

/// Reads an input from its file.
pub fn load<I: Input, F: Folder>(alloc: Global, folder: &mut F, name: &str) -> Result<I, Exit>
    ensures found { IfOk result (λ input. IsTrue (F.seen folder.old).tells
        → in_file I.said ((F.seen folder.old).file name.now) ≡ Ok (I.plain input)) }
    ensures valid { IfOk result I.valid }
    ensures refused { IfErr result (λ e. IsRefused (F.seen folder.old).tells (in_file I.said ((F.seen folder.old).file name.now)) (Rose (F.seen folder.old).faults
        (F.seen folder.new).faults) e) }
    ensures same { SameFiles (F.seen folder.old) (F.seen folder.new) }
    ensures later { (F.seen folder.old).faults ≤ (F.seen folder.new).faults }
    ensures still { ¬ IsErrOf result Exit.FileFault → (F.seen folder.new).faults ≡ (F.seen folder.old).faults }
{
    I::law_front();
    let text = read_front(alloc, folder, name, TEXT_LIMIT)?;
    I::read(alloc, text.as_slice())
}

/// Reads an image, and then the input that is used with it.
pub fn load_both<I: Input, F: Folder>(
    alloc: Global,
    folder: &mut F,
    image: &str,
    name: &str,
) -> Result<(Vec<u8>, I), Exit>
    ensures stands { IfOk result (λ both. (length both.0.items ≡ 65536) × IsSome (stands both.0.items)) }
    ensures held { IfOk result (λ both. IsTrue (F.seen folder.old).tells → (F.seen folder.old).file image.now ≡ Some both.0.items) }
    ensures found { IfOk result (λ both. IsTrue (F.seen folder.old).tells
        → in_file I.said ((F.seen folder.old).file name.now) ≡ Ok (I.plain both.1)) }
    ensures valid { IfOk result (λ both. I.valid both.1) }
    ensures refused { IfErr result (λ e. IsFirstRefused (F.seen folder.old).tells (image_in ((F.seen folder.old).file image.now))
        (in_file I.said ((F.seen folder.old).file name.now)) (Rose (F.seen folder.old).faults (F.seen folder.new).faults) e) }
    ensures same { SameFiles (F.seen folder.old) (F.seen folder.new) }
    ensures later { (F.seen folder.old).faults ≤ (F.seen folder.new).faults }
    ensures still { ¬ IsErrOf result Exit.FileFault → (F.seen folder.new).faults ≡ (F.seen folder.old).faults }
{
    let cells = load_image(alloc, folder, image)?;
    let input = load::<I, F>(alloc, folder, name)?;
    Ok((cells, input))
}
