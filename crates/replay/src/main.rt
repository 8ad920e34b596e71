// Replays stored answers: requests with the answers that the oracle gave (README.md), each run again here. It writes a line an operation: its
// name, how many requests the file has of it, and how many of these are answered as the oracle answered them.
#![tactic(auto)]

mod agreement;
mod boundary;
mod candidates;
mod compare;
mod contents;
mod counting;
mod file;
mod layout;
mod listings;
mod meshes;
mod operation;
mod record;
mod requests;

use counting::{Tally, count};
use file::load;
use layout::records_of;
use operation::{OPERATIONS, Operation};
use page::Page;
use std::io::Write;
use std::{fs, io};

// The words of a file of 1 MB.
const ROOM: usize = 131072;

// The numbers go through `number`, whose clause says their digits.
fn print_line<W: Write>(page: &mut Page<W>, operation: Operation, tally: Tally) {
    write!(page, "{operation}\t");
    page.number(tally.requests);
    page.text(b"\t");
    page.number(tally.agreeing);
    page.text(b"\n");
}

fn main(rt: HostRuntime) -> io::Result<()> {
    let bytes = fs::read(&rt, "answers.bin")?;
    let mut words = [0; ROOM];
    let n = load(bytes.as_slice(), &mut words);
    let mut page = Page::new(io::writer(&rt));
    match records_of(&words[..n]) {
        Some(records) => {
            for operation in OPERATIONS {
                print_line(&mut page, operation, count(records, operation));
            }
        }
        None => writeln!(page, "malformed"),
    }
    page.finish()
}
