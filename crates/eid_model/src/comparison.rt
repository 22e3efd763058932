/// What a VERIFY compares of the auxiliary data that a terminal sent (BSI TR-03110-2).
#[derive(Clone, Copy)]
pub enum Comparison {
    /// Age: the date of birth.
    Age,
    /// Document validity: the date of expiry.
    Validity,
    /// The community of the holder's residence.
    Community,
}
