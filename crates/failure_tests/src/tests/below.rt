//! What is put below a folder, and what is not: no link there is followed, and no file is replaced by another. And what
//! is replaced: regular files alone.
use super::asserts::must_hold;
use super::disk::{has, is_free, make_folders, put, remove, remove_folders};
use cli_failures::{Failure, files};
use std::io;
use std::os::unix::fs::symlink;

/// Whether this is the text of a failure.
fn is_text(rt: &HostRuntime, failure: &Failure<'_>, line: &str) -> bool {
    match format!(in rt.alloc(); "{failure}") {
        Ok(text) => text.as_str() == line,
        Err(_) => false,
    }
}

/// Whether an answer has the text of this failure, or is none, if the line is `done`.
fn is_said(rt: &HostRuntime, answer: &Result<(), Failure<'_>>, line: &str) -> bool {
    match answer {
        Ok(()) => line == "done",
        Err(failure) => is_text(rt, failure, line),
    }
}

/// Whether a test of these octets below a folder says this. Here and below, the call stands in a function of its own,
/// since its contract makes each step after it slow to check.
fn test_says(rt: &HostRuntime, folder: &str, name: &str, octets: &[u8], line: &str) -> bool {
    let tested = files::test_below(rt, folder, name, octets);
    is_said(rt, &tested, line)
}

/// Whether a write of these octets below a folder says this.
fn write_says(rt: &HostRuntime, folder: &str, name: &str, octets: &[u8], line: &str) -> bool {
    let wrote = files::write_below(rt, folder, name, octets);
    is_said(rt, &wrote, line)
}

/// Whether a test of these octets below a folder and a write of them say the same, which is this.
fn says(rt: &HostRuntime, folder: &str, name: &str, octets: &[u8], line: &str) -> bool {
    test_says(rt, folder, name, octets, line) && write_says(rt, folder, name, octets, line)
}

/// Links in a folder, and where they lead: to the folder above, to a file there, to nothing, and to an empty folder
/// below; and a link to that folder.
static LINKS: [(&str, &str); 5] = [
    ("linked/up", ".."),
    ("linked/file.ers", "../beside"),
    ("linked/none.ers", "../gone"),
    ("linked/within", "inner"),
    ("named", "linked"),
];

/// Makes these links.
fn link_all(rt: &HostRuntime) -> io::Result<()> {
    for (path, to) in &LINKS {
        symlink(rt, *to, *path)?;
    }
    Ok(())
}

/// Makes the folder with the links, and the file beside it.
fn make_links(rt: &HostRuntime) -> bool {
    make_folders(rt, &["linked", "linked/inner"]).is_ok()
        && put(rt, "beside", b"kept")
        && link_all(rt).is_ok()
}

/// Removes them, and what was put there.
fn remove_links(rt: &HostRuntime) -> bool {
    let paths = [
        "linked/up",
        "linked/file.ers",
        "linked/none.ers",
        "linked/within",
        "linked/a.ers",
        "linked/inner/b.ers",
        "named",
        "beside",
    ];
    remove(rt, &paths) && remove_folders(rt, &["linked/inner", "linked"]).is_ok()
}

/// Names below the folder with the links, and what is said of them.
static BELOW: [(&str, &str); 10] = [
    ("up/x", "failed write linked/up/x.ers\n"),
    ("up/linked/x", "failed write linked/up/linked/x.ers\n"),
    ("file", "failed write linked/file.ers\n"),
    ("none", "failed write linked/none.ers\n"),
    ("within/x", "failed write linked/within/x.ers\n"),
    ("..", "failed write linked/...ers\n"),
    ("../x", "failed write linked/../x.ers\n"),
    ("/x", "failed write linked//x.ers\n"),
    ("a", "done"),
    ("inner/b", "done"),
];

/// Paths that are free then.
static FREE: [&str; 4] = ["gone", "x.ers", "linked/x.ers", "linked/inner/x.ers"];

#[test]
fn follows_no_link_below_a_folder(rt: HostRuntime) {
    must_hold(&rt, make_links(&rt), "links");
    for (name, line) in &BELOW {
        must_hold(&rt, says(&rt, "linked", name, b"kept", line), name);
    }
    // The folder itself may be a link.
    must_hold(&rt, says(&rt, "named", "a", b"kept", "done"), "named");
    must_hold(&rt, has(&rt, "beside", b"kept"), "beside");
    for path in &FREE {
        must_hold(&rt, is_free(&rt, path), path);
    }
    must_hold(&rt, remove_links(&rt), "removed");
}

/// Octets that are put one after another by the same name, and what is said of them.
static IN_TURN: [(&[u8], &str); 6] = [
    (b"one", "done"),
    (b"one", "done"),
    (b"two", "failed replace filled/a.ers\n"),
    (b"on", "failed replace filled/a.ers\n"),
    (b"one\n", "failed replace filled/a.ers\n"),
    (b"", "failed replace filled/a.ers\n"),
];

#[test]
fn replaces_no_file_below_a_folder(rt: HostRuntime) {
    must_hold(&rt, make_folders(&rt, &["filled"]).is_ok(), "folder");
    for (octets, line) in &IN_TURN {
        must_hold(&rt, says(&rt, "filled", "a", octets, line), line);
        must_hold(&rt, has(&rt, "filled/a.ers", b"one"), "kept");
    }
    must_hold(&rt, is_free(&rt, "filled/a.ers.new0"), "no file beside it");
    must_hold(&rt, remove(&rt, &["filled/a.ers"]), "removed");
    must_hold(
        &rt,
        remove_folders(&rt, &["filled"]).is_ok(),
        "folder removed",
    );
}

/// Whether a test of the file of this path says this.
fn test_whole_says(rt: &HostRuntime, path: &str, line: &str) -> bool {
    let tested = files::test_whole(rt, path);
    is_said(rt, &tested, line)
}

/// Whether its replacement says this.
fn replace_says(rt: &HostRuntime, path: &str, line: &str) -> bool {
    let wrote = files::replace_whole(rt, path, b"new");
    is_said(rt, &wrote, line)
}

/// Paths of what is replaced, what is said of them, and what the file holds then.
static REPLACED: [(&str, &str, &[u8]); 6] = [
    (
        "renewed/link.ers",
        "failed write renewed/link.ers\n",
        b"old",
    ),
    (
        "renewed/none.ers",
        "failed write renewed/none.ers\n",
        b"old",
    ),
    ("renewed", "failed write renewed\n", b"old"),
    ("/dev/null", "failed write /dev/null\n", b"old"),
    (
        "renewed/\u{1b}[7m",
        "failed write renewed/\\x1b[7m\n",
        b"old",
    ),
    ("renewed/a.ers", "done", b"new"),
];

/// Makes a folder with a file and a link to it.
fn make_renewed(rt: &HostRuntime) -> bool {
    make_folders(rt, &["renewed"]).is_ok()
        && put(rt, "renewed/a.ers", b"old")
        && symlink(rt, "a.ers", "renewed/link.ers").is_ok()
}

#[test]
fn replaces_regular_files_alone(rt: HostRuntime) {
    must_hold(&rt, make_renewed(&rt), "files");
    for (path, line, kept) in &REPLACED {
        must_hold(&rt, test_whole_says(&rt, path, line), path);
        must_hold(&rt, replace_says(&rt, path, line), path);
        must_hold(&rt, has(&rt, "renewed/a.ers", kept), path);
    }
    must_hold(
        &rt,
        remove(&rt, &["renewed/link.ers", "renewed/a.ers"]),
        "removed",
    );
    must_hold(
        &rt,
        remove_folders(&rt, &["renewed"]).is_ok(),
        "folder removed",
    );
}
