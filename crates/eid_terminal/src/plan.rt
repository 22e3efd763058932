//! What a terminal is to do.
use arrayvec::ArrayVec;
use eid_base::{Point, Secret};
use eid_bits::{Date8, Template};
use eid_record::Password;

/// What a terminal asks for once the application is selected.
#[derive(Clone, Copy)]
pub enum Request {
    /// The data group with this number, 1 to 21, is read.
    File(u8),
    /// Age verification.
    Age,
    /// Document validity verification.
    Validity,
    /// Community verification.
    Community,
    /// Restricted identification.
    Ri,
}

/// What a terminal is to do, and with which keys.
#[derive(Drop)]
pub struct Plan {
    /// The card access number for a PACE before that with the password, six ASCII digits; none where there is no
    /// such PACE.
    pub can_first: Option<[u8; 6]>,
    /// The password of PACE.
    pub password: Password,
    /// The password's ASCII digits: ten of the PUK, six of another.
    pub value: ArrayVec<u8, 10>,
    /// The holder's template that PACE sends; none where it sends none.
    pub template: Option<Template>,
    /// The certificates in the order in which they are sent, each of at most 2,048 bytes; at most eight.
    pub certificates: Vec<Vec<u8>>,
    /// The secret of the terminal's key, by which it signs.
    pub terminal_secret: Secret,
    /// The chip's public key of chip authentication, which begins with 04.
    pub chip_key: Point,
    /// The date of birth that age verification compares.
    pub age: Option<Date8>,
    /// The date that document validity verification compares.
    pub validity: Option<Date8>,
    /// The community that community verification compares, 1 to 16 bytes.
    pub community: Option<ArrayVec<u8, 16>>,
    /// The sector key of restricted identification, which begins with 04.
    pub sector: Option<Point>,
    /// The requests in the order in which they are sent, at most 32.
    pub requests: Vec<Request>,
}
