//! The text that shows a record.
ghost use Rattle.std.specs.Prelude.{◌≡◌, ◌<◌, ◌++◌, [], OnOk, IfOk, codes, decimal, slice_index_or};
ghost use Rattle.std.specs.Option.{option_map};
ghost use Rattle.hex.specs.Hex.{encode_lower};
ghost use Rattle.eid_bits.specs.Dates.{date_digits};
ghost use Rattle.eid_record.specs.Layout.{file_count};
ghost use Rattle.eid_record.specs.View.{trust_point_view, record_view};
ghost use Rattle.eid_perso.specs.Names.{file_names};
ghost use Rattle.eid_perso.specs.Show.{line, yes_or_no, ascii, name_text, file_line, file_lines, counter_lines, state_lines, shown};

use crate::names::file_name;
use eid_base::NoMemory;
use eid_bits::Date6;
use eid_record::{FILES, Record, TrustPoint};
use std::alloc::Global;

/// A text that grows.
#[derive(Drop)]
struct Text {
    bytes: Vec<u8>,
}

impl Text {
    /// Appends bytes as they are.
    fn put(&mut self, bytes: &[u8]) -> Result<(), NoMemory>
        ensures { OnOk result (self.new.bytes.items ≡ self.old.bytes.items ++ bytes.now) }
    {
        self.bytes.extend_from_slice(bytes)?;
        Ok(())
    }

    /// Appends a line: a word, a space and a value.
    fn put_line(&mut self, word: &str, value: &[u8]) -> Result<(), NoMemory>
        ensures { OnOk result (self.new.bytes.items ≡ self.old.bytes.items ++ line word.now value.now) }
    {
        self.put(word.as_bytes())?;
        self.put(b" ")?;
        self.put(value)?;
        self.put(b"\n")
    }

    /// Appends a line whose value is a number in decimal.
    fn put_number(&mut self, word: &str, number: u32) -> Result<(), NoMemory>
        ensures { OnOk result (self.new.bytes.items ≡ self.old.bytes.items ++ line word.now (decimal number)) }
    {
        self.put(word.as_bytes())?;
        self.put(b" ")?;
        eid_text::put_decimal(number, &mut self.bytes)?;
        self.put(b"\n")
    }

    /// Appends a line whose value is bytes in hexadecimal.
    fn put_hex(&mut self, word: &str, bytes: &[u8]) -> Result<(), NoMemory>
        ensures { OnOk result (self.new.bytes.items ≡ self.old.bytes.items ++ line word.now (encode_lower bytes.now)) }
    {
        self.put(word.as_bytes())?;
        self.put(b" ")?;
        eid_text::put_hex(bytes, &mut self.bytes)?;
        self.put(b"\n")
    }

    /// Appends the line that says whether the PIN may be used.
    fn put_active(&mut self, active: bool) -> Result<(), NoMemory>
        ensures { OnOk result (self.new.bytes.items ≡ self.old.bytes.items ++ line (codes "active") (yes_or_no active)) }
    {
        if active {
            self.put_line("active", b"yes")
        } else {
            self.put_line("active", b"no")
        }
    }

    /// Appends the line of the date.
    fn put_date(&mut self, date: &Date6) -> Result<(), NoMemory>
        ensures { OnOk result (self.new.bytes.items ≡ self.old.bytes.items ++ line (codes "date") (ascii (date_digits date.now))) }
    {
        self.put_line("date", &ascii(date))
    }

    /// Appends the line of the previous trust point.
    fn put_previous(&mut self, point: &Option<TrustPoint>) -> Result<(), NoMemory>
        ensures { OnOk result (self.new.bytes.items ≡ self.old.bytes.items ++ line (codes "previous") (name_text (option_map trust_point_view point.now))) }
    {
        match point {
            None => self.put_line("previous", b"none"),
            Some(point) => self.put_hex("previous", point.name.as_slice()),
        }
    }

    /// Appends the lines of the layout and of the counters.
    fn put_counters(&mut self, kept: &Record, layout: u8) -> Result<(), NoMemory>
        ensures { OnOk result (self.new.bytes.items ≡ self.old.bytes.items ++ counter_lines layout (record_view kept.now)) }
    {
        self.put_number("layout", u32::from(layout))?;
        self.put_number("number", kept.number)?;
        self.put_number("tries", u32::from(kept.tries))?;
        self.put_number("unblocks", u32::from(kept.unblocks))
    }

    /// Appends the lines of the PIN's state, of the date and of the trust points.
    fn put_states(&mut self, kept: &Record) -> Result<(), NoMemory>
        ensures { OnOk result (self.new.bytes.items ≡ self.old.bytes.items ++ state_lines (record_view kept.now)) }
    {
        self.put_active(kept.active)?;
        self.put_date(&kept.date)?;
        self.put_hex("current", kept.current.name.as_slice())?;
        self.put_previous(&kept.previous)
    }

    /// Appends the line of a file, where it is there.
    fn put_file(&mut self, file: usize, length: Option<u16>) -> Result<(), NoMemory>
        requires { file < file_count }
        ensures { OnOk result (self.new.bytes.items ≡ self.old.bytes.items ++ file_line (slice_index_or file_names file []) length) }
    {
        match length {
            None => Ok(()),
            Some(length) => self.put_number(file_name(file), u32::from(length)),
        }
    }

    /// Appends the lines of the files that are there.
    fn put_files(&mut self, lengths: &[Option<u16>; FILES]) -> Result<(), NoMemory>
        ensures { OnOk result (self.new.bytes.items ≡ self.old.bytes.items ++ file_lines file_names lengths.now) }
    {
        for file in 0..FILES {
            self.put_file(file, lengths[file])?;
        }
        Ok(())
    }
}

/// The digits of a date as ASCII.
fn ascii(date: &Date6) -> [u8; 6]
    ensures { result ≡ ascii (date_digits date.now) }
{
    let [y1, y2, m1, m2, d1, d2] = *date.as_bytes();
    [
        b'0' + y1,
        b'0' + y2,
        b'0' + m1,
        b'0' + m2,
        b'0' + d1,
        b'0' + d2,
    ]
}

/// The text that shows a record which stands in this layout: a line for each value, the names of trust points in
/// hexadecimal, and a line with the length of each file that is there. The format is this project's own.
///
/// # Errors
/// `NoMemory` where memory for the text is refused.
pub fn show_text(alloc: Global, kept: &Record, layout: u8) -> Result<Vec<u8>, NoMemory>
    ensures { IfOk result (λ text. text.items ≡ shown layout (record_view kept.now)) }
{
    let mut out = Text {
        bytes: Vec::new(alloc),
    };
    out.put_counters(kept, layout)?;
    out.put_states(kept)?;
    out.put_files(&kept.lengths)?;
    Ok(out.bytes)
}
