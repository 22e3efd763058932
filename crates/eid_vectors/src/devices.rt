//! Questions about a device whose writes may be cut, and about the store that is mounted there.
ghost use Rattle.std.specs.Prelude.{◌≡◌, true, IfOk, IfSome, IsTrue};
ghost use Rattle.eid_cells.specs.Memory.{memory_cells, memory_device};
ghost use Rattle.eid_record.specs.Effect.{HasRange};
ghost use Rattle.eid_store.specs.Receipt.{receipt_spends};
ghost use Rattle.eid_store.specs.Store.{Fits};

use crate::records::image;
use crate::words::{
    Answer, Piece, Unanswered, bytes, fixed, line, number, put_word, shown, small, word,
};
use eid_cells::{Eeprom, MemoryEeprom, Tear};
use eid_record::{Effect, FILES, FileNo};
use eid_store::{MountError, Receipt, Store};
use std::alloc::Global;
use std::mem;

/// How many cells a device has, and how many of them a page.
const CELLS: usize = 65_536;

const PAGE: u32 = 64;

/// `device STEP ..`: what the steps give on a device with power whose cells are EE.
pub fn device(alloc: Global, steps: &[&str]) -> Answer {
    let mut cells = MemoryEeprom::new(vec![in alloc; 0xEE; CELLS]?);
    cells.power(true);
    run(alloc, steps, cells)
}

/// `store STEP ..`: the same on a device with power whose cells are the image of a chip: layout 1, and the record that
/// questions are about in slot A, which is open.
pub fn store(alloc: Global, steps: &[&str]) -> Answer {
    let cells = stored(alloc)?;
    run(alloc, steps, cells)
}

/// The device that `store` is about.
fn stored(alloc: Global) -> Result<MemoryEeprom, Unanswered> {
    let record = image(alloc)?;
    let mut written = vec![in alloc; 0; CELLS]?;
    put_record(written.as_mut_slice(), &record)?;
    let mut cells = MemoryEeprom::new(written);
    cells.power(true);
    Ok(cells)
}

/// Writes the image of a chip with this record.
fn put_record(cells: &mut [u8], record: &[u8]) -> Result<(), Unanswered> {
    if cells.len() < 128 || record.len() > cells.len() - 128 {
        return Err(Unanswered::Unclear);
    }
    cells[0] = 1;
    cells[64] = 0xA5;
    cells[128..128 + record.len()].copy_from_slice(record);
    Ok(())
}

/// Takes the steps one after the other; what each gives is a word.
fn run(alloc: Global, steps: &[&str], mut cells: MemoryEeprom) -> Answer {
    let mut store = None;
    let mut text = String::new(alloc);
    for step in steps {
        put_step(alloc, step, &mut cells, &mut store, &mut text)?;
    }
    Ok(text)
}

/// Takes a step, and appends the word that tells what it gave.
fn put_step(
    alloc: Global,
    step: &str,
    cells: &mut MemoryEeprom,
    store: &mut Option<Store>,
    text: &mut String,
) -> Result<(), Unanswered>
    requires { IfSome store.old (λ s. Fits s (memory_device cells.old) (memory_cells cells.old)) }
    ensures { IfSome store.new (λ s. Fits s (memory_device cells.new) (memory_cells cells.new)) }
{
    let parts: Vec<&str> = step.split(':').collect(alloc)?;
    let given = take_step(alloc, parts.as_slice(), cells, store)?;
    put_word(text, &given)?;
    Ok(())
}

/// A step, and the word that tells what it gave.
fn take_step(
    alloc: Global,
    parts: &[&str],
    cells: &mut MemoryEeprom,
    store: &mut Option<Store>,
) -> Answer
    requires { IfSome store.old (λ s. Fits s (memory_device cells.old) (memory_cells cells.old)) }
    ensures { IfSome store.new (λ s. Fits s (memory_device cells.new) (memory_cells cells.new)) }
{
    match parts {
        ["mount"] => mount(alloc, cells, store),
        ["spend"] => spend(alloc, cells, store),
        ["put", file, offset, bytes] => put(alloc, [file, offset, bytes], cells, store),
        ["file", file, offset, count] => file_bytes(alloc, [file, offset, count], cells, store),
        _ => {
            *store = None;
            touch(alloc, parts, cells)
        }
    }
}

/// `mount`: the commit number and the tries of the record that was mounted, `bad` or `cut`.
fn mount(alloc: Global, cells: &mut MemoryEeprom, store: &mut Option<Store>) -> Answer
    ensures { IfSome store.new (λ s. Fits s (memory_device cells.new) (memory_cells cells.new)) }
{
    *store = None;
    if !cells.powered() {
        return Err(Unanswered::Unclear);
    }
    match Store::mount(cells) {
        Ok(mounted) => {
            let (number, tries) = (mounted.kept().number, mounted.kept().tries);
            *store = Some(mounted);
            line(
                alloc,
                &[
                    Piece::Number(number),
                    Piece::Text("/"),
                    Piece::Number(u32::from(tries)),
                ],
            )
        }
        Err(MountError::BadImage) => word(alloc, "bad"),
        Err(MountError::Cut) => word(alloc, "cut"),
    }
}

/// `spend`: a commit that takes one try; its receipt, or `cut`.
fn spend(alloc: Global, cells: &mut MemoryEeprom, store: &mut Option<Store>) -> Answer
    requires { IfSome store.old (λ s. Fits s (memory_device cells.old) (memory_cells cells.old)) }
    ensures { IfSome store.new (λ s. Fits s (memory_device cells.new) (memory_cells cells.new)) }
{
    let Some(mut mounted) = mem::replace(store, None) else {
        return Err(Unanswered::Unclear);
    };
    let kept = mounted.kept();
    if kept.tries == 0 || kept.number == u32::MAX {
        return Err(Unanswered::Unclear);
    }
    match mounted.commit(cells, &Effect::Spend) {
        Ok(receipt) => {
            *store = Some(mounted);
            told(alloc, &receipt)
        }
        Err(_) => word(alloc, "cut"),
    }
}

/// The receipt of a commit that took a try, in the store that `store` is about.
pub fn spent(alloc: Global) -> Result<Receipt, Unanswered>
    ensures { IfOk result (λ receipt. receipt_spends receipt ≡ true) }
{
    let mut cells = stored(alloc)?;
    if !cells.powered() {
        return Err(Unanswered::Unclear);
    }
    let Ok(mut mounted) = Store::mount(&mut cells) else {
        return Err(Unanswered::Unclear);
    };
    let kept = mounted.kept();
    if kept.tries == 0 || kept.number == u32::MAX {
        return Err(Unanswered::Unclear);
    }
    match mounted.commit(&mut cells, &Effect::Spend) {
        Ok(receipt) => Ok(receipt),
        Err(_) => Err(Unanswered::Unclear),
    }
}

/// What a receipt says.
fn told(alloc: Global, receipt: &Receipt) -> Answer {
    let spend = if receipt.is_spend() { "true" } else { "false" };
    line(
        alloc,
        &[
            Piece::Text("number="),
            Piece::Number(receipt.number()),
            Piece::Text(",spend="),
            Piece::Text(spend),
        ],
    )
}

/// Whether the file is there, with so many bytes from this offset on.
fn has_range(lengths: &[Option<u16>; FILES], file: u8, offset: u16, count: usize) -> bool
    ensures { IsTrue result → HasRange lengths.now file offset count }
{
    if usize::from(file) >= FILES {
        return false;
    }
    match lengths[usize::from(file)] {
        Some(length) => { offset <= length && count <= usize::from(length) - usize::from(offset) }
        None => false,
    }
}

/// `put:FILE:OFFSET:BYTES`: a commit that writes these bytes of a file; its receipt, or `cut`.
fn put(
    alloc: Global,
    what: [&str; 3],
    cells: &mut MemoryEeprom,
    store: &mut Option<Store>,
) -> Answer
    requires { IfSome store.old (λ s. Fits s (memory_device cells.old) (memory_cells cells.old)) }
    ensures { IfSome store.new (λ s. Fits s (memory_device cells.new) (memory_cells cells.new)) }
{
    let [file, offset, put] = what;
    let file = small(file)?;
    let offset = two_byte_number(offset)?;
    let put = bytes(alloc, put)?;
    write_file(alloc, (file, offset), &put, cells, store)
}

/// Commits the write of these bytes at this place, which is a file and an offset.
fn write_file(
    alloc: Global,
    place: (u8, u16),
    put: &[u8],
    cells: &mut MemoryEeprom,
    store: &mut Option<Store>,
) -> Answer
    requires { IfSome store.old (λ s. Fits s (memory_device cells.old) (memory_cells cells.old)) }
    ensures { IfSome store.new (λ s. Fits s (memory_device cells.new) (memory_cells cells.new)) }
{
    let Some(mut mounted) = mem::replace(store, None) else {
        return Err(Unanswered::Unclear);
    };
    let (file, offset) = place;
    let kept = mounted.kept();
    if kept.number == u32::MAX || !has_range(&kept.lengths, file, offset, put.len()) {
        return Err(Unanswered::Unclear);
    }
    let effect = Effect::Write {
        file: FileNo(file),
        offset,
        bytes: put,
    };
    match mounted.commit(cells, &effect) {
        Ok(receipt) => {
            *store = Some(mounted);
            told(alloc, &receipt)
        }
        Err(_) => word(alloc, "cut"),
    }
}

/// `file:FILE:OFFSET:COUNT`: so many bytes of a file.
fn file_bytes(alloc: Global, what: [&str; 3], cells: &MemoryEeprom, store: &Option<Store>) -> Answer
    requires { IfSome store.now (λ s. Fits s (memory_device cells.now) (memory_cells cells.now)) }
{
    let Some(mounted) = store else {
        return Err(Unanswered::Unclear);
    };
    let [file, offset, count] = what;
    let file = small(file)?;
    let offset = two_byte_number(offset)?;
    let count = number(count)? as usize;
    if !has_range(&mounted.kept().lengths, file, offset, count) {
        return Err(Unanswered::Unclear);
    }
    let mut read = vec![in alloc; 0; count]?;
    mounted.read_file(cells, FileNo(file), offset, read.as_mut_slice());
    shown(alloc, read.as_slice())
}

fn two_byte_number(word: &str) -> Result<u16, Unanswered> {
    match u16::try_from(number(word)?) {
        Ok(number) => Ok(number),
        Err(_) => Err(Unanswered::Unclear),
    }
}

/// A step of the device itself: `on`, `off`, `power`, `cut:WRITE:TEAR`, `write:PLACE:BYTES` or `read:PLACE:COUNT`.
fn touch(alloc: Global, parts: &[&str], cells: &mut MemoryEeprom) -> Answer {
    match parts {
        ["on"] => turn(alloc, true, cells),
        ["off"] => turn(alloc, false, cells),
        ["power"] => power(alloc, cells),
        ["cut", write, tear] => plan(alloc, write, tear, cells),
        ["write", place, bytes] => write(alloc, place, bytes, cells),
        ["read", place, count] => read(alloc, place, count, cells),
        _ => Err(Unanswered::Unclear),
    }
}

/// Switches the power, and says whether it is on.
fn turn(alloc: Global, on: bool, cells: &mut MemoryEeprom) -> Answer {
    cells.power(on);
    power(alloc, cells)
}

/// Whether the power is on.
fn power(alloc: Global, cells: &MemoryEeprom) -> Answer {
    word(alloc, if cells.powered() { "on" } else { "off" })
}

/// Plans a cut that leaves `old`, `new` or `half` bytes, or a byte in hexadecimal in each cell.
fn plan(alloc: Global, write: &str, tear: &str, cells: &mut MemoryEeprom) -> Answer {
    let write = number(write)?;
    let tear = tear_in(alloc, tear)?;
    if write == 0 {
        return Err(Unanswered::Unclear);
    }
    cells.plan_cut(write, tear);
    power(alloc, cells)
}

/// What a word says that a cut leaves.
fn tear_in(alloc: Global, word: &str) -> Result<Tear, Unanswered> {
    match word {
        "old" => Ok(Tear::Old),
        "new" => Ok(Tear::New),
        "half" => Ok(Tear::Half),
        _ => tear_of_byte(alloc, word),
    }
}

fn tear_of_byte(alloc: Global, word: &str) -> Result<Tear, Unanswered> {
    let byte = bytes(alloc, word)?;
    match fixed::<1>(&byte) {
        Some(read) => Ok(Tear::Fill(read[0])),
        None => Err(Unanswered::Unclear),
    }
}

fn write(alloc: Global, place: &str, put: &str, cells: &mut MemoryEeprom) -> Answer {
    let place = number(place)?;
    let put = bytes(alloc, put)?;
    write_cells(alloc, place, &put, cells)
}

fn write_cells(alloc: Global, place: u32, put: &[u8], cells: &mut MemoryEeprom) -> Answer {
    let room = (PAGE - place % PAGE) as usize;
    if !cells.powered() || place as usize >= CELLS || put.is_empty() || put.len() > room {
        return Err(Unanswered::Unclear);
    }
    match cells.write(place, put) {
        Ok(()) => word(alloc, "ok"),
        Err(_) => word(alloc, "cut"),
    }
}

fn read(alloc: Global, place: &str, count: &str, cells: &MemoryEeprom) -> Answer {
    let place = number(place)?;
    let count = number(count)? as usize;
    if !cells.powered() || place as usize > CELLS || count > CELLS - place as usize {
        return Err(Unanswered::Unclear);
    }
    let mut read = vec![in alloc; 0; count]?;
    cells.read(place, read.as_mut_slice());
    shown(alloc, read.as_slice())
}
