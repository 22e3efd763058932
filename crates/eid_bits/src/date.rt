ghost use Rattle.std.specs.Prelude.{◌≡◌, ◌↔◌, ◌<◌, ◌^◌, ◌+◌, ◌-◌, ◌*◌, IsOk, IfOk, IsTrue};
ghost use Rattle.std.specs.Char.{is_ascii_digit};
ghost use Rattle.std.specs.List.{list_all};
ghost use Rattle.eid_bits.specs.Date.{is_date, is_long_date};

/// The bytes are no date.
#[derive(Clone, Copy, Debug)]
pub struct BadDate;

/// A date as certificates have it: six bytes, each one digit of YYMMDD (BSI TR-03110-3). The month is 01 to
/// 12 and the day 01 to 31; that a month has fewer days is not looked at.
#[derive(Clone, Copy, Debug)]
pub struct Date6 {
    digits: [u8; 6],
    pub ghost valid: { IsTrue (is_date digits) },
}

impl Date6 {
    ghost use Rattle.eid_bits.specs.Date.{number_of};
    ghost use Rattle.eid_bits.specs.Dates.{date_digits};

    /// The date of these bytes.
    ///
    /// # Errors
    /// `BadDate` exactly where they are no date.
    pub fn from_bytes(bytes: &[u8]) -> Result<Date6, BadDate>
        ensures date { IsOk result ↔ IsTrue (is_date bytes.now) }
        ensures value { IfOk result (λ d. date_digits d ≡ bytes.now) }
    {
        if !is_date(bytes) {
            return Err(BadDate);
        }
        let Ok(digits) = <[u8; 6]>::try_from(bytes) else {
            return Err(BadDate);
        };
        Ok(Date6 { digits })
    }

    /// The six digits, each as its number.
    pub fn as_bytes(&self) -> &[u8; 6]
        ensures { result.now ≡ date_digits self.now }
    {
        &self.digits
    }

    /// The date as the decimal number YYMMDD, so that later dates of one century have greater numbers.
    pub fn number(&self) -> u32
        ensures { result ≡ number_of (date_digits self.now) }
    {
        let [y1, y2, m1, m2, d1, d2] = self.digits;
        let year = 10 * y1 as u32 + y2 as u32;
        let month = 10 * m1 as u32 + m2 as u32;
        let day = 10 * d1 as u32 + d2 as u32;
        (100 * year + month) * 100 + day
    }
}

fn is_date(bytes: &[u8]) -> bool
    ensures { result ≡ is_date bytes.now }
{
    let &[y1, y2, m1, m2, d1, d2] = bytes else {
        return false;
    };
    let are_digits = y1 <= 9 && y2 <= 9 && m1 <= 9 && m2 <= 9 && d1 <= 9 && d2 <= 9;
    are_digits && matches!(10 * m1 + m2, 1..=12) && matches!(10 * d1 + d2, 1..=31)
}

/// A date as data groups and auxiliary data have it: eight ASCII digits, YYYYMMDD (BSI TR-03110-3, -4). The month
/// is 01 to 12 and the day 01 to 31; that a month has fewer days is not looked at.
#[derive(Clone, Copy)]
pub struct Date8 {
    text: [u8; 8],
    pub ghost valid: { IsTrue (is_long_date text) },
}

impl Date8 {
    ghost use Rattle.eid_bits.specs.Date.{digits_of, number_of};
    ghost use Rattle.eid_bits.specs.Dates.{date_text};

    /// The date of these bytes.
    ///
    /// # Errors
    /// `BadDate` exactly where they are no date.
    pub fn from_bytes(bytes: &[u8]) -> Result<Date8, BadDate>
        ensures date { IsOk result ↔ IsTrue (is_long_date bytes.now) }
        ensures value { IfOk result (λ d. date_text d ≡ bytes.now) }
    {
        if !is_long_date(bytes) {
            return Err(BadDate);
        }
        let Ok(text) = <[u8; 8]>::try_from(bytes) else {
            return Err(BadDate);
        };
        Ok(Date8 { text })
    }

    /// The eight ASCII digits.
    pub fn as_bytes(&self) -> &[u8; 8]
        ensures { result.now ≡ date_text self.now }
    {
        &self.text
    }

    /// The date as the decimal number YYYYMMDD, so that later dates have greater numbers.
    pub fn number(&self) -> u32
        ensures { result ≡ number_of (digits_of (date_text self.now)) }
    {
        let [c1, c2, y1, y2, m1, m2, d1, d2] = self.text;
        let year = 100 * two_digits(c1, c2) + two_digits(y1, y2);
        (100 * year + two_digits(m1, m2)) * 100 + two_digits(d1, d2)
    }
}

fn is_long_date(text: &[u8]) -> bool
    ensures { result ≡ is_long_date text.now }
{
    let &[_, _, y1, y2, m1, m2, d1, d2] = text else {
        return false;
    };
    let date = [
        digit(y1),
        digit(y2),
        digit(m1),
        digit(m2),
        digit(d1),
        digit(d2),
    ];
    are_digits(text) && is_date(&date)
}

fn are_digits(text: &[u8]) -> bool
    ensures { result ≡ list_all is_ascii_digit text.now }
{
    text.iter().all(|character| character.is_ascii_digit())
}

/// The number that two ASCII digits spell.
fn two_digits(tens: u8, ones: u8) -> u32
    ensures { result ≡ 10 * (tens - 0x30) + (ones - 0x30) }
{
    10 * u32::from(digit(tens)) + u32::from(digit(ones))
}

/// The digit that an ASCII character is.
fn digit(character: u8) -> u8
    ensures { result ≡ character - 0x30 }
{
    character.saturating_sub(b'0')
}
