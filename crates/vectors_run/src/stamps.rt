//! Time-stamps that are checked beside what they stamp, with lists that are made for them.
use crate::checks::{path_of, put_answers, put_trust};
use crate::folder::{pipe_of, put, put_value};
use crate::outcome::{printed, tell_command};
use vectors::{Row, Said};

/// Says how `stamp check` ends and what it prints of the token or the response `stamp=` over `data=`; without `data=`
/// of a file that is not there. The trust list is `trust=`, without its first two words. The answers list has each
/// question of the stamp, except those that have the word `silent=`, and `words=` are further words. With `piped=yes`
/// the data come from a pipe, which can be read only once.
pub fn stamp(said: &mut Said, rt: &HostRuntime, row: &Row<'_>) {
    put_trust(said, rt, row);
    put_value(said, rt, row, "stamp", "stamp");
    put_answers(
        said,
        rt,
        row,
        &["stamp+questions+--trust+trusted.txt+stamp"],
    );
    if row.value("data").is_none() {
        return tell_beside(said, rt, row, "nowhere");
    }
    let data = said.given(row, "data");
    if said.taken(row.flag("piped"), false) {
        tell_beside_pipe(said, rt, row, data.as_slice());
    } else {
        put(said, rt, "data", data.as_slice());
        tell_beside(said, rt, row, "data");
    }
}

/// Says what is said with data that come from a pipe.
fn tell_beside_pipe(said: &mut Said, rt: &HostRuntime, row: &Row<'_>, data: &[u8]) {
    if let Some(reader) = pipe_of(said, rt, data) {
        let path = path_of(said, &reader);
        tell_beside(said, rt, row, path.as_str());
    }
}

/// Says what is said with the data of this path.
fn tell_beside(said: &mut Said, rt: &HostRuntime, row: &Row<'_>, data: &str) {
    let last = printed(said, format!(in row.alloc; "stamp+{data}"));
    let first = "stamp+check+--trust+trusted.txt+--answers+answers.txt";
    tell_command(said, rt, row, first, last.as_str());
}
