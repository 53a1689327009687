//! Evidence records that are checked beside their data, with lists that are made for them.
use crate::checks::{put_answers, put_content, put_trust};
use crate::folder::{put, put_value, remove};
use crate::outcome::{printed, tell_command};
use vectors::{Bad, Row, Said};

const ASKING: &str = "evidence+questions+--trust+trusted.txt+record.er";

/// Says how `evidence check` ends and what it prints of the record `record=` over the data `data=`, octets with `;`
/// between them. The trust list is `trust=`, without its first two words. The answers list has each question of the
/// record, except those that have the word `silent=`, and `words=` are further words.
pub fn evidence(said: &mut Said, rt: &HostRuntime, row: &Row<'_>) {
    put_trust(said, rt, row);
    put_value(said, rt, row, "record.er", "record");
    put_answers(said, rt, row, &[ASKING]);
    let mut last = said.taken(row.word("record.er"), String::new(row.alloc));
    let data = said.taken(row.text("data"), "");
    put_data(said, rt, row, data, &mut last);
    let first = "evidence+check+--trust+trusted.txt+--answers+answers.txt";
    tell_command(said, rt, row, first, last.as_str());
    remove_data(said, rt, data);
}

/// Makes the files of the data, and adds their paths to words.
fn put_data(said: &mut Said, rt: &HostRuntime, row: &Row<'_>, data: &str, words: &mut String) {
    let mut number: usize = 0;
    for part in data.split(';') {
        let path = data_path(said, number);
        let octets = said.taken(row.made(part), Vec::new(row.alloc));
        put(said, rt, path.as_str(), octets.as_slice());
        add(said, words, path.as_str());
        number = number.saturating_add(1);
    }
}

fn remove_data(said: &mut Said, rt: &HostRuntime, data: &str) {
    let mut number: usize = 0;
    for _part in data.split(';') {
        let path = data_path(said, number);
        remove(said, rt, path.as_str());
        number = number.saturating_add(1);
    }
}

/// The path of the data of this number, from 0.
fn data_path(said: &mut Said, number: usize) -> String {
    let path = format!(in said.alloc; "data-{number}");
    printed(said, path)
}

fn add(said: &mut Said, words: &mut String, word: &str) {
    if words.push_str("+").is_err() || words.push_str(word).is_err() {
        said.refuse(Bad::Memory);
    }
}

/// Says how `check` ends beside the evidence record `record=`, and what it prints of `file=`. The trust list is
/// `trust=`, without its first two words. The answers list has each question of the record and of the file, except
/// those that have the word `silent=`. The content beside the file is `content=`, if the row has it, and `words=` are
/// further words.
pub fn under(said: &mut Said, rt: &HostRuntime, row: &Row<'_>) {
    put_trust(said, rt, row);
    put_value(said, rt, row, "record.er", "record");
    put_value(said, rt, row, "signed.p7s", "file");
    put_answers(
        said,
        rt,
        row,
        &[ASKING, "questions+--trust+trusted.txt+signed.p7s"],
    );
    put_content(said, rt, row);
    tell_command(said, rt, row, first_of(row), "signed.p7s");
}

/// The first words of a check beside a record.
fn first_of(row: &Row<'_>) -> &'static str {
    match row.value("content") {
        Some(_) => {
            "check+--trust+trusted.txt+--answers+answers.txt+--evidence+record.er+--content+content.txt"
        }
        None => "check+--trust+trusted.txt+--answers+answers.txt+--evidence+record.er",
    }
}
