//! Records that are renewed in memory, by a time-stamp and by a hash tree, and go on where the work was cut off.
use crate::asserts::must_hold;
use crate::ends::{End, end_of};
use crate::memory::{Memory, PATHS};
use crate::renewals::{BY_STAMP, BY_TREE, FIRST, Renewal, SECOND};
use crate::tokens::{FIRST_TOKEN, SECOND_TOKEN, Token, octets_of, record_of};
use cli_failures::Failure;
use cli_rehashing::{RecordFolder, rehash_all, rehash_request};
use cli_renewing::{renew_all, renewal_request};
use digests::Alg;
use std::alloc::Global;

/// Where the records are, each of its one file.
const FOLDER: RecordFolder = RecordFolder {
    path: "folder",
    alone: false,
};

/// Both records as they were, of which so many can be put.
fn records(alloc: Global, left: u32) -> Option<Memory> {
    let first = record_of(alloc, &[(FIRST, &FIRST_TOKEN)])?;
    let second = record_of(alloc, &[(SECOND, &SECOND_TOKEN)])?;
    Some(Memory {
        alloc,
        first,
        second,
        left,
    })
}

/// What becomes of a record: what stands before its old token, that, and what stands before the new one, and that.
fn record_with(
    alloc: Global,
    before: &[&str; 2],
    old_token: &Token,
    new_token: &Token,
) -> Option<Vec<u8>> {
    record_of(alloc, &[(before[0], old_token), (before[1], new_token)])
}

/// What becomes of both.
fn renewed(alloc: Global, by: &Renewal) -> Option<Memory> {
    let first = record_with(alloc, &by.first, &FIRST_TOKEN, &by.token)?;
    let second = record_with(alloc, &by.second, &SECOND_TOKEN, &by.token)?;
    Some(Memory {
        alloc,
        first,
        second,
        left: 0,
    })
}

/// What `renew_all` answers; or, for a text of sums by SHA-512, `rehash_all`.
fn renew<'a>(keeps: &mut Memory, sums: Option<&str>, token: &[u8]) -> Result<(), Failure<'a>> {
    let alloc = keeps.alloc;
    match sums {
        Some(sums) => rehash_all(alloc, keeps, &FOLDER, Alg::Sha512, sums.as_bytes(), token),
        None => renew_all(alloc, keeps, &PATHS, token),
    }
}

/// How a renewal with these octets as the token ends.
fn ended(keeps: &mut Memory, sums: Option<&str>, token: &[u8]) -> End {
    let answer = renew(keeps, sums, token);
    end_of(&answer)
}

/// How a renewal with this token ends.
fn ended_by(keeps: &mut Memory, sums: Option<&str>, token: &Token) -> End {
    match octets_of(keeps.alloc, token) {
        Some(octets) => ended(keeps, sums, &octets),
        None => End::Failed,
    }
}

/// The request for a renewal.
fn request(keeps: &Memory, sums: Option<&str>) -> Option<Vec<u8>> {
    let request = match sums {
        Some(sums) => rehash_request(keeps.alloc, keeps, &FOLDER, Alg::Sha512, sums.as_bytes()),
        None => renewal_request(keeps.alloc, keeps, &PATHS),
    };
    request.ok()
}

/// Whether the request has the octets that it must have.
fn is_requested(keeps: &Memory, by: &Renewal) -> bool {
    match (
        request(keeps, by.sums),
        hex::decode(keeps.alloc, by.request),
    ) {
        (Some(made), Ok(expected)) => made.as_slice() == expected.as_slice(),
        _ => false,
    }
}

#[test]
fn the_request_is_over_both_leaves(rt: HostRuntime) {
    let are_over_both = match &records(rt.alloc(), 0) {
        Some(keeps) => is_requested(keeps, &BY_STAMP) && is_requested(keeps, &BY_TREE),
        None => false,
    };
    must_hold(&rt, are_over_both, "over both leaves");
}

/// Whether the first record is that of the one, and the second that of the other.
fn are_those(keeps: &Memory, first: &Memory, second: &Memory) -> bool {
    keeps.first.as_slice() == first.first.as_slice()
        && keeps.second.as_slice() == second.second.as_slice()
}

/// Whether the first record alone is renewed, and then, where one more can be put, both.
fn is_done_in_two(keeps: &mut Memory, by: &Renewal, old: &Memory, new: &Memory) -> bool {
    let is_cut = matches!(ended_by(keeps, by.sums, &by.token), End::Cut);
    let is_begun = are_those(keeps, new, old);
    keeps.left = 1;
    let is_done = matches!(ended_by(keeps, by.sums, &by.token), End::Done);
    is_cut && is_begun && is_done && are_those(keeps, new, new)
}

/// Whether nothing is to be done with this token, and another one is refused.
fn is_at_its_end(keeps: &mut Memory, by: &Renewal) -> bool {
    let is_done = matches!(ended_by(keeps, by.sums, &by.token), End::Done);
    let is_none_left = keeps.left == 0;
    let is_other_refused = matches!(
        ended_by(keeps, by.sums, &FIRST_TOKEN),
        End::ImprintDiffers | End::TokenMalformed | End::Unstamping
    );
    is_done && is_none_left && is_other_refused
}

/// Whether the work goes on.
fn goes_on(alloc: Global, by: &Renewal) -> bool {
    match (records(alloc, 1), records(alloc, 0), renewed(alloc, by)) {
        (Some(mut keeps), Some(old), Some(new)) => {
            is_done_in_two(&mut keeps, by, &old, &new) && is_at_its_end(&mut keeps, by)
        }
        _ => false,
    }
}

#[test]
fn the_work_goes_on_where_it_was_cut_off(rt: HostRuntime) {
    must_hold(&rt, goes_on(rt.alloc(), &BY_STAMP), "by a time-stamp");
    must_hold(&rt, goes_on(rt.alloc(), &BY_TREE), "by a hash tree");
}

/// Whether nothing is put where the token is another one, or none, or a record is malformed.
fn is_refused(keeps: &mut Memory, by: &Renewal) -> bool {
    let is_other = matches!(ended_by(keeps, by.sums, &FIRST_TOKEN), End::ImprintDiffers);
    let is_none = matches!(ended(keeps, by.sums, &[]), End::TokenMalformed);
    keeps.second = Vec::new(keeps.alloc);
    let is_malformed = matches!(ended_by(keeps, by.sums, &by.token), End::Malformed);
    is_other && is_none && is_malformed && keeps.left == 2
}

/// Whether both records as they were are refused so.
fn are_refused(alloc: Global, by: &Renewal) -> bool {
    match &mut records(alloc, 2) {
        Some(keeps) => is_refused(keeps, by),
        None => false,
    }
}

#[test]
fn nothing_is_put_where_something_is_refused(rt: HostRuntime) {
    must_hold(&rt, are_refused(rt.alloc(), &BY_STAMP), "by a time-stamp");
    must_hold(&rt, are_refused(rt.alloc(), &BY_TREE), "by a hash tree");
}

/// Whether the sums of the hash tree, twice, are refused, and nothing is put.
fn is_twice_refused(keeps: &mut Memory) -> bool {
    let sums = BY_TREE.sums.unwrap_or("");
    let Ok(twice) = format!(in keeps.alloc; "{sums}{sums}") else {
        return false;
    };
    let end = ended_by(keeps, Some(twice.as_str()), &BY_TREE.token);
    matches!(end, End::Twice(3)) && keeps.left == 2
}

#[test]
fn a_name_that_stands_twice_is_refused(rt: HostRuntime) {
    let is_refused = match &mut records(rt.alloc(), 2) {
        Some(keeps) => is_twice_refused(keeps),
        None => false,
    };
    must_hold(&rt, is_refused, "twice");
}
