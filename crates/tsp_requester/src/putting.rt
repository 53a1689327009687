ghost use Rattle.std.specs.Prelude.{◌++◌};
ghost use Rattle.devices.specs.Device.{Wrote};
ghost use Rattle.tsp_requester.specs.Pieces.{opening_octets, openings_octets};

use crate::opening::Opening;
use devices::{Sink, SinkFault, put_all};

// Writes octets, and others after them.
fn put_both<S: Sink>(out: &mut S, first: &[u8], second: &[u8]) -> Result<(), SinkFault>
    ensures wrote { Wrote result (S.tells out.old) (S.taken out.old) (S.taken out.new) (S.failures out.old)
        (S.failures out.new) (first.now ++ second.now) }
    ensures telling { S.tells out.old → S.tells out.new }
{
    put_all(out, first)?;
    put_all(out, second)
}

fn put_opening<S: Sink>(out: &mut S, opening: &Opening) -> Result<(), SinkFault>
    ensures wrote { Wrote result (S.tells out.old) (S.taken out.old) (S.taken out.new) (S.failures out.old)
        (S.failures out.new) (opening_octets opening.now) }
    ensures telling { S.tells out.old → S.tells out.new }
{
    put_both(out, opening.header.bytes(), opening.front)
}

// Writes the beginnings of elements, one after the other.
fn put_openings<S: Sink>(out: &mut S, openings: &[Opening]) -> Result<(), SinkFault>
    ensures wrote { Wrote result (S.tells out.old) (S.taken out.old) (S.taken out.new) (S.failures out.old)
        (S.failures out.new) (openings_octets openings.now) }
    ensures telling { S.tells out.old → S.tells out.new }
{
    for opening in openings {
        put_opening(out, opening)?;
    }
    Ok(())
}

// Writes the beginnings of elements, the token in the innermost of them, and what follows it.
pub(crate) fn put_file<S: Sink>(
    out: &mut S,
    openings: &[Opening],
    token: &[u8],
    behind: &[u8],
) -> Result<(), SinkFault>
    ensures wrote { Wrote result (S.tells out.old) (S.taken out.old) (S.taken out.new)
        (S.failures out.old) (S.failures out.new)
        (openings_octets openings.now ++ (token.now ++ behind.now)) }
    ensures telling { S.tells out.old → S.tells out.new }
{
    put_openings(out, openings)?;
    put_both(out, token, behind)
}
