//! EMSA-PSS (RFC 8017 9.1).
ghost use Rattle.std.specs.Prelude.{◌≡◌, ◌+◌, ◌*◌, ◌≤◌, ◌<◌, ◌↔◌, ◌++◌, IsTrue, length, replicate, take, slice_index};
ghost use Rattle.digests.specs.Digests.{alg_of, octets_of};
ghost use Rattle.digests.specs.Messages.{digest_of};
ghost use Rattle.rsa_signatures.specs.Pss.{IsConsistent, clear_bits, mgf1, xor_octets};

use crate::masks::add_mask;
use digests::{Alg, Digest, digest};

/// Sets so many leftmost bits of the leftmost octet to 0.
fn clear(octets: &mut [u8], bits: u32)
    requires some { 0 < length octets.old }
    requires bits { bits < 8 }
    ensures { octets.new ≡ clear_bits bits octets.old }
{
    octets[0] = (octets[0] as u16 % (1u16 << (8 - bits))) as u8;
}

/// Whether so many octets are 0, and the next one is 1.
fn is_padded(octets: &[u8], zeros: usize) -> bool
    requires { zeros < length octets.now }
    ensures { IsTrue result ↔ ((take zeros octets.now ≡ replicate zeros 0) × (slice_index octets.now zeros ≡ 1)) }
{
    'front: for i in 0..zeros {
        if octets[i] != 0 {
            return false;
        }
    }
    octets[zeros] == 1
}

/// The hash value of eight octets 0, a hash value and a salt.
fn hash_salted(alg: Alg, hash: &[u8], salt: &[u8]) -> Digest
    requires hash { length hash.now ≤ 64 }
    requires salt { length salt.now ≤ 1024 }
    ensures algorithm { alg_of result ≡ alg }
    ensures octets { octets_of result ≡ digest_of alg (replicate 8 0 ++ (hash.now ++ salt.now)) }
{
    let mut room = [0u8; 1096];
    let middle = 8 + hash.len();
    let end = middle + salt.len();
    room[8..middle].copy_from_slice(hash);
    room[middle..end].copy_from_slice(salt);
    digest(alg, &room[..end])
}

/// Puts DB into room, of the masked one and of H.
fn put_block(room: &mut [u8], mask: Alg, masked: &[u8], hash: &[u8], spare: u32)
    requires some { 0 < length room.old }
    requires few { length room.old ≤ 1024 }
    requires masked { length masked.now ≡ length room.old }
    requires hash { length hash.now ≤ 64 }
    requires spare { spare < 8 }
    ensures { room.new ≡ clear_bits spare (xor_octets masked.now (mgf1 mask hash.now (length room.old))) }
{
    room.copy_from_slice(masked);
    add_mask(room, mask, hash);
    clear(room, spare);
}

/// Whether an encoded message of so many bits is consistent with the hash value of a message (RFC 8017 9.1.2).
pub(crate) fn is_consistent(
    alg: Alg,
    mask: Alg,
    salt: usize,
    hash: &[u8],
    message: &[u8],
    bits: usize,
) -> bool
    requires few { length message.now ≤ 1024 }
    requires hash { length hash.now ≤ 64 }
    requires bits { bits ≤ 8 * length message.now }
    requires spare { 8 * length message.now < bits + 8 }
    ensures { IsTrue result ↔ IsConsistent alg mask salt hash.now message.now bits }
{
    let size = alg.length();
    let count = message.len();
    if salt > 1024 {
        return false;
    }
    if count < size + salt + 2 {
        return false;
    }
    if message[count - 1] != 0xbc {
        return false;
    }
    let spare = (8 * count - bits) as u32;
    if message[0] as u16 >= 1u16 << (8 - spare) {
        return false;
    }
    let end = count - size - 1;
    let given = &message[end..end + size];
    let mut room = [0u8; 1024];
    let block = &mut room[..end];
    put_block(block, mask, &message[..end], given, spare);
    if !is_padded(block, end - salt - 1) {
        return false;
    }
    hash_salted(alg, hash, &block[end - salt..]).is(given)
}
