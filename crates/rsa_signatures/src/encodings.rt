//! Encoded messages.
ghost use Rattle.std.specs.Prelude.{◌≡◌, ◌+◌, ◌≤◌, length};
ghost use Rattle.rsa_signatures.specs.Pkcs1.{emsa_pkcs1_v1_5};

/// Makes octets the encoded message of a DigestInfo (RFC 8017 9.2).
pub(crate) fn encode(message: &mut [u8], info: &[u8])
    requires { length info.now + 11 ≤ length message.old }
    ensures { message.new ≡ emsa_pkcs1_v1_5 info.now (length message.old) }
{
    let end = message.len() - info.len();
    message.fill(0xff);
    message[0] = 0;
    message[1] = 1;
    message[end - 1] = 0;
    message[end..].copy_from_slice(info);
}
