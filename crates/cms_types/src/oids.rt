//! Object identifiers of the Cryptographic Message Syntax and of time-stamps, as the contents of OBJECT IDENTIFIERs.

/// id-signedData, 1.2.840.113549.1.7.2 (RFC 5652 5.1).
pub const SIGNED_DATA: [u8; 9] = [0x2a, 0x86, 0x48, 0x86, 0xf7, 0x0d, 0x01, 0x07, 0x02];

/// id-data, 1.2.840.113549.1.7.1 (RFC 5652 4).
pub const DATA: [u8; 9] = [0x2a, 0x86, 0x48, 0x86, 0xf7, 0x0d, 0x01, 0x07, 0x01];

/// id-aa-timeStampToken, 1.2.840.113549.1.9.16.2.14 (RFC 3161 appendix A).
pub const TIME_STAMP_TOKEN: [u8; 11] = [
    0x2a, 0x86, 0x48, 0x86, 0xf7, 0x0d, 0x01, 0x09, 0x10, 0x02, 0x0e,
];
