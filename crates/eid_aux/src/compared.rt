ghost use Rattle.std.specs.Prelude.{◌≡◌, Bool};
ghost use Rattle.eid_bits.specs.Dates.{date_text};
ghost use Rattle.eid_aux.specs.Compared.{answer, compared_birth, compared_community, compared_expiry};

use eid_bits::Date8;

/// What a comparison of stored data with sent auxiliary data gives.
#[derive(Clone, Copy, Debug, PartialEq, Eq)]
pub enum Compared {
    /// The comparison holds.
    Yes,
    /// It does not hold.
    No,
    /// There is no stored data to compare with.
    NoReference,
}

/// The result of a comparison that could be made.
fn answer(holds: bool) -> Compared
    ensures { result ≡ answer holds }
{
    if holds { Compared::Yes } else { Compared::No }
}

/// Age verification (BSI TR-03110-2): `Yes` where the holder was born on the date that was sent or before, which is
/// then the last date of birth of those who are old enough. `NoReference` comes exactly where the stored bytes are
/// no date YYYYMMDD.
pub fn compare_birth(stored: &[u8], sent: &Date8) -> Compared
    ensures { result ≡ compared_birth stored.now (date_text sent.now) }
{
    match Date8::from_bytes(stored) {
        Ok(birth) => answer(birth.number() <= sent.number()),
        Err(_) => Compared::NoReference,
    }
}

/// Document validity verification (BSI TR-03110-2): `Yes` where the document expires on the date that was sent or
/// later. `NoReference` comes exactly where the stored bytes are no date YYYYMMDD.
pub fn compare_expiry(stored: &[u8], sent: &Date8) -> Compared
    ensures { result ≡ compared_expiry stored.now (date_text sent.now) }
{
    match Date8::from_bytes(stored) {
        Ok(expiry) => answer(expiry.number() >= sent.number()),
        Err(_) => Compared::NoReference,
    }
}

/// Community verification (BSI TR-03110-2): `Yes` where the stored identifier begins with the bytes that were sent.
/// `NoReference` comes exactly where the stored identifier is empty.
pub fn compare_community(stored: &[u8], sent: &[u8]) -> Compared
    ensures { result ≡ compared_community stored.now sent.now }
{
    if stored.is_empty() {
        return Compared::NoReference;
    }
    answer(stored.starts_with(sent))
}
