// The worked blocks of document 01 that are run: a line each, its name, a tab, and `ok` where every stated result came out, else `bad`. Reads nothing.
#![tactic(auto)]

mod bits;
mod cleaning;
mod closing;
mod halves;
mod listed;
mod replies;

use cleaning::{c2, c8, c14};
use closing::{c3b, c10, c13};
use halves::c15;
use page::Page;
use std::io;

fn main(rt: HostRuntime) -> io::Result<()> {
    let mut page = Page::new(io::writer(&rt));
    let cases = [
        ("C2", c2()),
        ("C3b", c3b()),
        ("C8", c8()),
        ("C10", c10()),
        ("C13", c13()),
        ("C14", c14()),
        ("C15", c15()),
    ];
    for (name, ok) in cases {
        let outcome = if ok { "ok" } else { "bad" };
        writeln!(page, "{name}\t{outcome}");
    }
    page.finish()
}
