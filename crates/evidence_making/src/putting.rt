ghost use Rattle.std.specs.Prelude.{◌≡◌, ◌^◌, ◌<◌, ◌≤◌, ◌↔◌, ◌++◌, length, IfOk, OnOk, Err};
ghost use Rattle.der_core.specs.Element.{el};
ghost use Rattle.der_core.specs.Values.{HasLength};
ghost use Rattle.evidence_making.specs.Frames.{added, frame_value, its_lists, stamp_inside, record_inside};
ghost use Rattle.evidence_making.specs.Frames.{lists_inside};
ghost use Rattle.evidence_making.specs.Frames.{BeginLists, head_octets, chains_octets};

use crate::algorithm::put_algorithm;
use crate::fault::MakeFault;
use crate::frame::Frame;
use crate::headers::{Headers, headers_of};
use crate::lists::put_lists;
use der_core::tags::{INTEGER, SEQUENCE};
use evidence_trees::LeafLists;
use std::alloc::{AllocError, Global};

/// The whole version, an INTEGER: 1 (RFC 4998 3.1).
const VERSION: [u8; 3] = [INTEGER, 1, 1];

/// The identifier octet of the algorithm of an archive time-stamp, `[0]` IMPLICIT (RFC 4998 4.1).
const ALGORITHM: u8 = 0xa0;

// Adds the algorithm to `digestAlgorithms`, if it is to be added.
fn put_added(out: &mut Vec<u8>, frame: &Frame) -> Result<(), AllocError>
    ensures { OnOk result (out.new.items ≡ out.old.items ++ added frame.now.alg frame.now.adds) }
{
    if frame.adds {
        put_algorithm(out, SEQUENCE, frame.alg)?;
    }
    Ok(())
}

// Adds what comes before the chains.
fn put_head(out: &mut Vec<u8>, headers: &Headers, frame: &Frame) -> Result<(), AllocError>
    ensures { OnOk result (out.new.items ≡ out.old.items ++ head_octets headers.now (frame_value frame.now)) }
{
    out.extend_from_slice(headers.whole.bytes())?;
    out.extend_from_slice(&VERSION)?;
    out.extend_from_slice(headers.algorithms.bytes())?;
    out.extend_from_slice(frame.algorithms)?;
    put_added(out, frame)?;
    out.extend_from_slice(frame.others)?;
    Ok(())
}

// Adds the chains and archive time-stamps that come before that of the token.
fn put_chains(out: &mut Vec<u8>, headers: &Headers, frame: &Frame) -> Result<(), AllocError>
    ensures { OnOk result (out.new.items ≡ out.old.items ++ chains_octets headers.now (frame_value frame.now)) }
{
    out.extend_from_slice(headers.chains.bytes())?;
    out.extend_from_slice(frame.chains)?;
    out.extend_from_slice(headers.chain.bytes())?;
    out.extend_from_slice(frame.stamps)?;
    out.extend_from_slice(headers.stamp.bytes())?;
    Ok(())
}

// Adds the parts of the archive time-stamp of the token.
fn put_stamp(
    out: &mut Vec<u8>,
    headers: &Headers,
    frame: &Frame,
    values: &LeafLists,
    token: &[u8],
) -> Result<(), MakeFault>
    requires { BeginLists headers.now.lists (its_lists frame.now values.now) }
    ensures put { OnOk result
        (out.new.items ≡ out.old.items ++ stamp_inside frame.now.alg (its_lists frame.now values.now)
        token.now) }
    ensures too_long { result ≡ Err MakeFault.TooLong
        → 2 ^ 32 ≤ length (lists_inside (its_lists frame.now values.now)) }
{
    put_algorithm(out, ALGORITHM, frame.alg)?;
    put_lists(out, &headers.lists, frame.group, values)?;
    out.extend_from_slice(token)?;
    Ok(())
}

// The octets of a record with this token in this frame. Memory is requested once, for all of them.
pub(crate) fn record_of(
    alloc: Global,
    frame: &Frame,
    values: &LeafLists,
    token: &[u8],
) -> Result<Vec<u8>, MakeFault>
    ensures octets { IfOk result (λ v. v.items
        ≡ el 0x30 (record_inside (frame_value frame.now) (its_lists frame.now values.now) token.now)) }
    ensures fits { IfOk result (λ v.
        HasLength (record_inside (frame_value frame.now) (its_lists frame.now values.now) token.now)) }
    ensures too_long { (result ≡ Err MakeFault.TooLong)
        ↔ (2 ^ 32 ≤ length (record_inside (frame_value frame.now) (its_lists frame.now values.now) token.now)) }
{
    let headers = headers_of(frame, values, token)?;
    let mut out = Vec::with_capacity(alloc, headers.size as usize)?;
    put_head(&mut out, &headers, frame)?;
    put_chains(&mut out, &headers, frame)?;
    put_stamp(&mut out, &headers, frame, values, token)?;
    Ok(out)
}
