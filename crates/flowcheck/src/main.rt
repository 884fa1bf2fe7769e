// A listing and a graph, each in a file; whether the graph is the listing's, on standard output.
#![tactic(auto)]

ghost use Rattle.comparing.specs.ComparingStates.{standing_of};
ghost use Rattle.checking.specs.Pieces.{SomeFed, SomeChecked};

use at_limits::list::list_text;
use checking::check::conclude;
use checking::verdict::{MAX_ROW, show_verdict};
use comparing::compare::Comparing;
use filling::read_full;
use layout::limits::MAX_BYTES;
use layout::refusals::Refusal;
use printing::list::MAX_PRINTED;
use std::env::FillError;
use std::fs::File;
use std::io;
use std::io::{Read, Write};
use std::rt::Env;

// Room for every name that std can open.
const MAX_NAME: usize = 4096;

// So many bytes of a graph are read and compared at once.
const PIECE: usize = 65536;

// An open file and its name.
#[derive(Drop)]
struct Named<'a> {
    file: File,
    name: &'a [u8],
}

// Why nothing is said of the graph: the name of a file that has no room, a file that goes on where it was read to its
// end, or what std says of the file of that name.
#[derive(Drop)]
enum Failure<'a> {
    LongName,
    Unread,
    Of { name: &'a [u8], error: io::Error },
}

// Whether there is an argument i. One that is too long for any name is an argument.
fn is_given(rt: &HostRuntime, i: usize) -> bool {
    let mut name = [0u8; MAX_NAME];
    !matches!(rt.arg(i, &mut name), Err(FillError::NotPresent))
}

// Says on standard error why nothing is said of the graph.
// Kept: no `Display`: a file's name is bytes, and may be no UTF-8.
fn tell(rt: &HostRuntime, failure: Failure<'_>) {
    let mut errors = rt.stderr();
    let _ = match failure {
        Failure::LongName => {
            errors.write_all(b"flowcheck: the name of a file: File name too long\n")
        }
        Failure::Unread => errors.write_all(b"flowcheck: a file was not read to its end\n"),
        Failure::Of { name, error } => {
            let _ = errors.write_all(name);
            writeln!(errors, ": {error}")
        }
    };
}

// Opens the file of that name. A name that is not UTF-8 is one that std cannot open.
fn open_name(rt: &HostRuntime, name: &[u8]) -> io::Result<File> {
    let path = str::from_utf8(name).map_err(|_| io::Error::from(io::ErrorKind::InvalidFilename))?;
    File::open(rt, path)
}

// Opens the file that argument i names.
fn open_named<'a>(
    rt: &HostRuntime,
    i: usize,
    room: &'a mut [u8; MAX_NAME],
) -> Result<Named<'a>, Failure<'a>> {
    let len = rt.arg(i, room).map_err(|_| Failure::LongName)?;
    let name = &room[..len];
    let file = open_name(rt, name).map_err(|error| Failure::Of { name, error })?;
    Ok(Named { file, name })
}

// That a file was read to its end: one more read brings nothing.
fn expect_end<'a>(named: &mut Named<'a>) -> Result<(), Failure<'a>> {
    let mut byte = [0u8; 1];
    match named.file.read(&mut byte) {
        Ok(0) => Ok(()),
        Ok(_) => Err(Failure::Unread),
        Err(error) => Err(Failure::Of {
            name: named.name,
            error,
        }),
    }
}

// That a listing was read to its end, or as far as it can matter: a longer one is refused by its length.
fn expect_text_end<'a>(n: usize, listing: &mut Named<'a>) -> Result<(), Failure<'a>> {
    if MAX_BYTES < n {
        return Ok(());
    }
    expect_end(listing)
}

// The graph in a file beside the one due, in pieces.
// Kept: a range and no `loop`: a proved loop has to end, so its turns are counted, up to a number that no run comes to.
fn compare_file(file: &mut File, due: &[u8]) -> Comparing<Refusal>
    ensures { SomeFed due.now (standing_of result) }
{
    let mut s = Comparing::begin();
    let mut piece = [0u8; PIECE];
    for _ in 0..u64::MAX {
        let n = read_full(file, &mut piece);
        s = s.feed(due, &piece[..n]);
        if n < PIECE {
            return s;
        }
    }
    s
}

// The row for a listing's text and a graph in a file: the definition's for some bytes, those that `compare_file` feeds.
fn check_file<'a>(text: &[u8], file: &mut File, row: &'a mut [u8; MAX_ROW]) -> &'a [u8]
    ensures { SomeChecked text.now result.now }
{
    let mut page = [0u8; MAX_PRINTED];
    let listed = list_text(text, &mut page);
    let due = &page[..listed.len];
    let s = compare_file(file, due);
    let r = show_verdict(row, conclude(listed.built, s, due));
    &row[..r]
}

// The row for the files that the arguments name. Both are opened before anything is judged, and both are read to their
// ends.
fn check_named<'a>(
    rt: &HostRuntime,
    listing_name: &'a mut [u8; MAX_NAME],
    graph_name: &'a mut [u8; MAX_NAME],
    row: &'a mut [u8; MAX_ROW],
) -> Result<&'a [u8], Failure<'a>> {
    let mut listing = open_named(rt, 1, listing_name)?;
    let mut graph = open_named(rt, 2, graph_name)?;
    let mut text = [0u8; MAX_BYTES + 1];
    let n = read_full(&mut listing.file, &mut text);
    expect_text_end(n, &mut listing)?;
    let shown = check_file(&text[..n], &mut graph.file, row);
    expect_end(&mut graph)?;
    Ok(shown)
}

// Prints the row where both files could be read.
fn main(rt: HostRuntime) {
    if !is_given(&rt, 2) || is_given(&rt, 3) {
        let _ = rt.stderr().write_all(b"usage: flowcheck LISTING GRAPH\n");
        return;
    }
    let mut listing_name = [0u8; MAX_NAME];
    let mut graph_name = [0u8; MAX_NAME];
    let mut row = [0u8; MAX_ROW];
    match check_named(&rt, &mut listing_name, &mut graph_name, &mut row) {
        Ok(row) => {
            let _ = rt.stdout().write_all(row);
        }
        Err(failure) => tell(&rt, failure),
    }
}
