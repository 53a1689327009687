//! MGF1 (RFC 8017 B.2.1).
ghost use Rattle.std.specs.Prelude.{◌≡◌, ◌≤◌, ◌<◌, ◌++◌, length, take};
ghost use Rattle.digests.specs.Digests.{alg_of, octets_of};
ghost use Rattle.digests.specs.Messages.{digest_of};
ghost use Rattle.big_numbers.specs.Numbers.{i2osp};
ghost use Rattle.rsa_signatures.specs.Pss.{mgf1, xor_octets};

use digests::{Alg, Digest, digest};

/// The hash value for a counter.
fn block_of(alg: Alg, seed: &[u8], counter: u8) -> Digest
    requires { length seed.now ≤ 64 }
    ensures algorithm { alg_of result ≡ alg }
    ensures octets { octets_of result ≡ digest_of alg (seed.now ++ i2osp counter 4) }
{
    let end = seed.len();
    let mut room = [0u8; 68];
    room[..end].copy_from_slice(seed);
    room[end + 3] = counter;
    digest(alg, &room[..end + 4])
}

/// Puts the mask of a seed into room.
fn put_mask(room: &mut [u8], alg: Alg, seed: &[u8], count: usize)
    requires room { length room.old ≡ 1088 }
    requires seed { length seed.now ≤ 64 }
    requires count { count ≤ 1024 }
    ensures { take count room.new ≡ mgf1 alg seed.now count }
{
    let size = alg.length();
    'counters: for counter in 0..(count + size - 1) / size {
        let block = block_of(alg, seed, counter as u8);
        room[size * counter..size * counter + size].copy_from_slice(block.bytes());
    }
}

/// Adds a mask to octets.
fn add_octets(octets: &mut [u8], mask: &[u8])
    requires { length mask.now ≡ length octets.old }
    ensures { octets.new ≡ xor_octets octets.old mask.now }
{
    'octets: for i in 0..octets.len() {
        octets[i] ^= mask[i];
    }
}

/// Adds the mask of a seed to octets.
pub(crate) fn add_mask(octets: &mut [u8], alg: Alg, seed: &[u8])
    requires seed { length seed.now ≤ 64 }
    requires few { length octets.old ≤ 1024 }
    ensures { octets.new ≡ xor_octets octets.old (mgf1 alg seed.now (length octets.old)) }
{
    let mut room = [0u8; 1088];
    let count = octets.len();
    put_mask(&mut room, alg, seed, count);
    add_octets(octets, &room[..count]);
}
