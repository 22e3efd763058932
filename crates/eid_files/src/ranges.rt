ghost use Rattle.std.specs.Prelude.{◌≡◌};
ghost use Rattle.eid_base.specs.Rules.{refused_by};
ghost use Rattle.eid_files.specs.Ranges.{range_view, read_given, write_refusal};

use eid_base::rules::{BEYOND_END, OFFSET};
use eid_base::{Rule, Status};

/// The status of a command that was carried out (ISO/IEC 7816-4).
const DONE: Status = Status(0x9000);
/// The status of a reading where the file ends before all that was expected is read (ISO/IEC 7816-4).
const ENDS_EARLY: Status = Status(0x6282);

/// The expected lengths that ask for all that there is, in a short command and in an extended one (ISO/IEC 7816-4).
const ALL_SHORT: u32 = 256;

const ALL_EXTENDED: u32 = 65_536;

/// How many bytes of a file of `length` bytes a READ BINARY gives from an offset on, where it expects `ne` bytes,
/// and its status (ISO/IEC 7816-4): at most `ne` and what is left. The status is 6282 where fewer than `ne` are
/// left and `ne` is neither 256 nor 65,536, which ask for all that there is; else 9000.
///
/// # Errors
/// Rule 38 exactly where the offset is greater than the length.
pub fn read_range(length: u16, offset: u16, ne: u32) -> Result<(u16, Status), Rule>
    ensures { range_view result ≡ read_given length offset ne }
{
    if offset > length {
        return Err(OFFSET);
    }
    let left = length - offset;
    if u32::from(left) >= ne {
        return Ok((ne as u16, DONE));
    }
    if ne == ALL_SHORT || ne == ALL_EXTENDED {
        return Ok((left, DONE));
    }
    Ok((left, ENDS_EARLY))
}

/// Whether an UPDATE BINARY of `count` bytes from an offset on stays in a file of `length` bytes, as it must
/// (ISO/IEC 7816-4).
///
/// # Errors
/// Rule 38 exactly where the offset is greater than the length, else rule 39 exactly where offset and count
/// together are.
pub fn write_range(length: u16, offset: u16, count: u16) -> Result<(), Rule>
    ensures { refused_by result ≡ write_refusal length offset count }
{
    if offset > length {
        return Err(OFFSET);
    }
    if count > length - offset {
        return Err(BEYOND_END);
    }
    Ok(())
}
