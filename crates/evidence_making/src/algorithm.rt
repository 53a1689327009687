ghost use Rattle.std.specs.Prelude.{◌≡◌, ◌≤◌, ℕ, ◌++◌, length, OnOk};
ghost use Rattle.der_core.specs.Element.{el};
ghost use Rattle.der_core.specs.Values.{algorithm_parts};
ghost use Rattle.evidence_making.specs.Made.{plain};

use der_core::tags::OBJECT_IDENTIFIER;
use digests::Alg;
use std::alloc::AllocError;

// How many octets the AlgorithmIdentifier of an algorithm has, without parameters, whatever its identifier octet.
pub(crate) fn algorithm_length(alg: Alg) -> u64
    ensures size { (t : ℕ) → result ≡ length (el t (algorithm_parts (plain alg))) }
    ensures bound { result ≤ 13 }
{
    4 + alg.oid_contents().len() as u64
}

// Adds the AlgorithmIdentifier of an algorithm, without parameters, with this identifier octet.
pub(crate) fn put_algorithm(out: &mut Vec<u8>, tag: u8, alg: Alg) -> Result<(), AllocError>
    ensures { OnOk result (out.new.items ≡ out.old.items ++ el tag (algorithm_parts (plain alg))) }
{
    let oid = alg.oid_contents();
    let count = oid.len() as u8;
    out.extend_from_slice(&[tag, 2 + count, OBJECT_IDENTIFIER, count])?;
    out.extend_from_slice(oid)?;
    Ok(())
}
