/// The identifier octet of the content of a ContentInfo, and of eContent, `[0] EXPLICIT` (RFC 5652 3, 5.2).
pub(crate) const CONTENT: u8 = 0xa0;

/// The identifier octets of certificates, `[0] IMPLICIT`, and of revocation information, `[1] IMPLICIT` (RFC 5652 5.1).
pub(crate) const CERTIFICATES: u8 = 0xa0;

pub(crate) const CRLS: u8 = 0xa1;

/// The identifier octets of the choices of a certificate (RFC 5652 10.2.2).
pub(crate) const CERTIFICATE_TAGS: [u8; 5] = [0x30, 0xa0, 0xa1, 0xa2, 0xa3];

/// The identifier octets of the choices of revocation information (RFC 5652 10.2.1).
pub(crate) const CRL_TAGS: [u8; 2] = [0x30, 0xa1];

/// The versions of a SignedData (RFC 5652 5.1).
pub(crate) const VERSIONS: [u8; 4] = [1, 3, 4, 5];
