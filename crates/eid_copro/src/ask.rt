use eid_base::{Point, Secret, Signature};

/// What a coprocessor can be asked.
#[derive(Clone, Copy)]
pub enum Question {
    /// A random nonce.
    Nonce,
    /// A random challenge.
    Challenge,
    /// A random secret and its public point, over that base or over the generator.
    Pair {
        base: Option<Point>,
    },
    /// The generic mapping of PACE (BSI TR-03110-3): the nonce times the generator, plus the secret
    /// times the peer's point.
    Map {
        nonce: [u8; 16],
        secret: Secret,
        peer: Point,
    },
    /// The secret times the peer's point.
    Agree {
        secret: Secret,
        peer: Point,
    },
    /// Whether the signature of the digest is one by that key.
    Verify {
        key: Point,
        digest: [u8; 32],
        signature: Signature,
    },
    /// A signature of the digest.
    Sign {
        secret: Secret,
        digest: [u8; 32],
    },
}

/// What a coprocessor can answer.
#[derive(Clone, Copy)]
pub enum Answer {
    /// A random nonce.
    Nonce([u8; 16]),
    /// A random challenge.
    Challenge([u8; 8]),
    /// A random secret and its public point.
    Pair { secret: Secret, public: Point },
    /// The base that a mapping gave.
    Mapped(Point),
    /// The X half of the point that was agreed.
    Shared([u8; 32]),
    /// A mapping or an agreement gave no point.
    NoPoint,
    /// Whether the signature is one of the digest by the key.
    Verdict(bool),
    /// The signature of the digest.
    Signed(Signature),
    /// The coprocessor failed.
    Fault,
}

/// A question and the answer that was given.
#[derive(Clone, Copy)]
pub struct Ask {
    pub question: Question,
    pub answer: Answer,
}
