ghost use Rattle.std.specs.Prelude.{◌≡◌};
ghost use Rattle.eid_record.specs.Reading.{size};

use crate::layout::FILES;
use arrayvec::ArrayVec;
use eid_base::{Point, Secret};
use eid_bits::{Date6, Template};

/// A trust point of terminal authentication: the name, the rights and the key by which the chip knows a
/// country verifying certification authority (BSI TR-03110-3).
#[derive(Drop)]
pub struct TrustPoint {
    /// The holder name, 1 to 16 bytes.
    pub name: ArrayVec<u8, 16>,
    /// The greatest rights that certificates below it can give.
    pub template: Template,
    /// The public key, which begins with 04.
    pub key: Point,
}

/// The durable values of the chip, without the bytes of its files.
#[derive(Drop)]
pub struct Record {
    /// How many commits there were, counted from the number of the personalisation.
    pub number: u32,
    /// The tries that are left for the PIN, at most 3.
    pub tries: u8,
    /// The unblockings that are left for the PUK, at most 10.
    pub unblocks: u8,
    /// Whether the PIN may be used.
    pub active: bool,
    /// The PIN as ASCII digits.
    pub pin: [u8; 6],
    /// The card access number as ASCII digits.
    pub can: [u8; 6],
    /// The PIN unblocking key as ASCII digits.
    pub puk: [u8; 10],
    /// The latest date that the chip has seen in a trusted certificate.
    pub date: Date6,
    /// The trust point by which certificates are verified.
    pub current: TrustPoint,
    /// The one before it, which stays valid; `None` where there was none.
    pub previous: Option<TrustPoint>,
    /// The static key of chip authentication.
    pub ca_secret: Secret,
    /// The static key of restricted identification.
    pub ri_secret: Secret,
    /// The length of each file by its number, at most 2,048 and 24,000 together; `None` is an absent file.
    pub lengths: [Option<u16>; FILES],
}

/// The number of a file: 0 is EF.CardAccess, 1 is EF.CardSecurity, and n + 1 is data group n.
#[derive(Clone, Copy, Debug, PartialEq, Eq, Hash)]
pub struct FileNo(pub u8);

/// A password of PACE (BSI TR-03110-2).
#[derive(Clone, Copy, Debug, PartialEq, Eq, Hash)]
pub enum Password {
    /// The card access number, printed on the card.
    Can,
    /// The holder's secret number, whose tries are counted.
    Pin,
    /// The PIN unblocking key.
    Puk,
}

/// The number of bytes of a file of this length, 0 where it is absent.
pub fn size_of(length: Option<u16>) -> u32
    ensures { result ≡ size length }
{
    length.map_or(0, u32::from)
}

impl TrustPoint {
    ghost use Rattle.eid_record.specs.Valid.{IsShaped};
    ghost use Rattle.eid_record.specs.View.{trust_point_view};

    /// The same trust point; no memory is taken.
    pub fn copied(&self) -> TrustPoint
        ensures same { trust_point_view result ≡ trust_point_view self.now }
        ensures shaped { IsShaped (trust_point_view result) }
    {
        let mut name = ArrayVec::new();
        let _ = name.try_extend_from_slice(self.name.as_slice());
        let key = self.key;
        TrustPoint {
            name,
            template: self.template,
            key,
        }
    }
}
