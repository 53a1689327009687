//! The identifier octets of the types that this profile reads (X.690 8.1.2, X.680 8.6).

/// BOOLEAN (X.690 8.2).
pub const BOOLEAN: u8 = 0x01;

/// INTEGER (X.690 8.3).
pub const INTEGER: u8 = 0x02;

/// BIT STRING, primitive (X.690 8.6).
pub const BIT_STRING: u8 = 0x03;

/// OCTET STRING, primitive (X.690 8.7).
pub const OCTET_STRING: u8 = 0x04;

/// OBJECT IDENTIFIER (X.690 8.19).
pub const OBJECT_IDENTIFIER: u8 = 0x06;

/// UTCTime (X.690 8.25).
pub const UTC_TIME: u8 = 0x17;

/// GeneralizedTime (X.690 8.25).
pub const GENERALIZED_TIME: u8 = 0x18;

/// SEQUENCE and SEQUENCE OF (X.690 8.9, 8.10).
pub const SEQUENCE: u8 = 0x30;

/// SET and SET OF (X.690 8.11, 8.12).
pub const SET: u8 = 0x31;
