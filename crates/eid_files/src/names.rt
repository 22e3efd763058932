ghost use Rattle.std.specs.Prelude.{◌≡◌, ℕ, ◌+◌, Some, IsTrue};
ghost use Rattle.eid_files.specs.Names.{data_group, data_group_of, file_of_id, file_of_short, found, is_data_group};

use eid_record::FileNo;

/// EF.CardAccess.
const CARD_ACCESS: FileNo = FileNo(0);
/// EF.CardSecurity.
const CARD_SECURITY: FileNo = FileNo(1);

/// The number of the last data group; the first one is 1. Their number is this project's own.
pub const LAST_DATA_GROUP: u8 = 21;

/// The short identifier of EF.CardAccess (BSI TR-03110-3).
const SHORT_CARD_ACCESS: u8 = 0x1C;
/// The short identifier of EF.CardSecurity (BSI TR-03110-3).
const SHORT_CARD_SECURITY: u8 = 0x1D;

/// The file of a short identifier: 1C is EF.CardAccess, 1D is EF.CardSecurity (BSI TR-03110-3), and n is data group
/// n, from 1 to 21 (BSI TR-03110-4). Others name no file.
pub fn file_of_short(id: u8) -> Option<FileNo>
    ensures { found result ≡ file_of_short id }
{
    match id {
        SHORT_CARD_ACCESS => Some(CARD_ACCESS),
        SHORT_CARD_SECURITY => Some(CARD_SECURITY),
        1..=LAST_DATA_GROUP => Some(FileNo(id + 1)),
        _ => None,
    }
}

/// The first byte of each file's identifier.
const FILE: u8 = 0x01;

/// The file of an identifier, which is 01 and then the short identifier: 011C is EF.CardAccess, 011D is
/// EF.CardSecurity, and 0100 + n is data group n, from 1 to 21. Others name no file.
pub fn file_of_id(id: u16) -> Option<FileNo>
    ensures { found result ≡ file_of_id id }
{
    match id.to_be_bytes() {
        [FILE, short] => file_of_short(short),
        _ => None,
    }
}

/// The number of the data group that a file is, from 1 to 21, if it is one.
pub fn data_group_of(file: FileNo) -> Option<u8>
    ensures { result ≡ data_group_of file.0 }
{
    let number = file.0.saturating_sub(1);
    match number {
        1..=LAST_DATA_GROUP => Some(number),
        _ => None,
    }
}

/// Each data group is named by its identifier and by its short identifier, and is found to be that data group.
pub fn law_data_groups()
    ensures by_short { (n : ℕ) → IsTrue (is_data_group n) → file_of_short n ≡ Some (data_group n) }
    ensures by_id { (n : ℕ) → IsTrue (is_data_group n) → file_of_id (0x0100 + n) ≡ Some (data_group n) }
    ensures number { (n : ℕ) → IsTrue (is_data_group n) → data_group_of (data_group n) ≡ Some n }
{}
