ghost use Rattle.std.specs.Prelude.{◌≡◌, ◌^◌, ◌≤◌, ◌↔◌, length, IfOk, IsErr};
ghost use Rattle.evidence_making.specs.Frames.{added, frame_value, its_lists, record_inside, AreHeaders};

use crate::algorithm::algorithm_length;
use crate::frame::Frame;
use crate::lists::open_lists;
use crate::opening::open;
use der_core::tags::SEQUENCE;
use der_core::{Header, TooLong};
use evidence_trees::LeafLists;

// How the elements around a token begin, from the outside, and how many octets the outermost has.
#[derive(Drop)]
pub(crate) struct Headers {
    pub(crate) whole: Header,
    pub(crate) algorithms: Header,
    pub(crate) chains: Header,
    pub(crate) chain: Header,
    pub(crate) stamp: Header,
    pub(crate) lists: Option<Header>,
    pub(crate) size: u64,
}

// How many octets are added to `digestAlgorithms`.
fn added_length(frame: &Frame) -> u64
    ensures size { result ≡ length (added frame.now.alg frame.now.adds) }
    ensures bound { result ≤ 13 }
{
    if frame.adds {
        algorithm_length(frame.alg)
    } else {
        0
    }
}

// The beginnings of the elements around a token.
pub(crate) fn headers_of(
    frame: &Frame,
    values: &LeafLists,
    token: &[u8],
) -> Result<Headers, TooLong>
    ensures headers { IfOk result (AreHeaders (frame_value frame.now) (its_lists frame.now values.now) token.now) }
    ensures too_long { IsErr result
        ↔ 2 ^ 32 ≤ length (record_inside (frame_value frame.now) (its_lists frame.now values.now) token.now) }
{
    let lists = open_lists(frame.group, values)?;
    let stamp_front = algorithm_length(frame.alg) + lists.size;
    let stamp = open(SEQUENCE, stamp_front + token.len() as u64)?;
    let chain = open(SEQUENCE, frame.stamps.len() as u64 + stamp.size)?;
    let chains = open(SEQUENCE, frame.chains.len() as u64 + chain.size)?;
    let algorithms = open(
        SEQUENCE,
        frame.algorithms.len() as u64 + added_length(frame),
    )?;
    let others = frame.others.len() as u64;
    let whole = open(SEQUENCE, 3 + algorithms.size + others + chains.size)?;
    Ok(Headers {
        whole: whole.header,
        algorithms: algorithms.header,
        chains: chains.header,
        chain: chain.header,
        stamp: stamp.header,
        lists: lists.header,
        size: whole.size,
    })
}
