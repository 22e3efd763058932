//! The headers of commands (ISO/IEC 7816-4; BSI TR-03110-3), with the lengths that are expected.
use eid_sm::Header;

/// MSE:Set AT for PACE.
pub const SELECT_PACE: Header = Header {
    cla: 0x00,
    ins: 0x22,
    p1: 0xC1,
    p2: 0xA4,
    ne: 0,
};

/// GENERAL AUTHENTICATE to which another one is chained.
pub const AUTHENTICATE_CHAINED: Header = Header {
    cla: 0x10,
    ins: 0x86,
    p1: 0x00,
    p2: 0x00,
    ne: 256,
};

/// GENERAL AUTHENTICATE.
pub const AUTHENTICATE: Header = Header {
    cla: 0x00,
    ins: 0x86,
    p1: 0x00,
    p2: 0x00,
    ne: 256,
};

/// MSE:Set DST.
pub const SELECT_KEY: Header = Header {
    cla: 0x00,
    ins: 0x22,
    p1: 0x81,
    p2: 0xB6,
    ne: 0,
};

/// PSO:Verify Certificate.
pub const VERIFY_CERTIFICATE: Header = Header {
    cla: 0x00,
    ins: 0x2A,
    p1: 0x00,
    p2: 0xBE,
    ne: 0,
};

/// MSE:Set AT for terminal authentication.
pub const ANNOUNCE: Header = Header {
    cla: 0x00,
    ins: 0x22,
    p1: 0x81,
    p2: 0xA4,
    ne: 0,
};

/// GET CHALLENGE.
pub const GET_CHALLENGE: Header = Header {
    cla: 0x00,
    ins: 0x84,
    p1: 0x00,
    p2: 0x00,
    ne: 256,
};

/// EXTERNAL AUTHENTICATE.
pub const EXTERNAL_AUTHENTICATE: Header = Header {
    cla: 0x00,
    ins: 0x82,
    p1: 0x00,
    p2: 0x00,
    ne: 0,
};

/// MSE:Set AT for chip authentication and restricted identification.
pub const SELECT_PROTOCOL: Header = Header {
    cla: 0x00,
    ins: 0x22,
    p1: 0x41,
    p2: 0xA4,
    ne: 0,
};

/// SELECT of an application by its identifier.
pub const SELECT_APPLICATION: Header = Header {
    cla: 0x00,
    ins: 0xA4,
    p1: 0x04,
    p2: 0x0C,
    ne: 0,
};

/// VERIFY of auxiliary data.
pub const VERIFY: Header = Header {
    cla: 0x80,
    ins: 0x20,
    p1: 0x80,
    p2: 0x00,
    ne: 0,
};
