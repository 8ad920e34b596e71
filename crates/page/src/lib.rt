// A page that a program writes on, by `write!`, texts and numbers, one after another. The first write that fails is kept, and nothing is written after it: `finish` answers it.
#![tactic(auto)]

ghost use Rattle.std.specs.Prelude.{◌≡◌, IsOk, IfSome, OnOk};
ghost use Rattle.std.specs.Fmt.{decimal};
ghost use Rattle.std.specs.Io.KnownBytes.{Appends};

use std::fmt::Display;
use std::io;
use std::io::Write;

#[derive(Drop)]
pub struct Page<W: Write> {
    pub writer: W,
    pub written: io::Result<()>,
}

impl<W: Write> Page<W> {
    pub fn new(writer: W) -> Page<W>
        ensures writer { result.writer ≡ writer }
        ensures written { IsOk result.written }
    {
        Page {
            writer,
            written: Ok(()),
        }
    }

    // What `write!` calls. It answers nothing, so that what prints need not answer a `Result`.
    pub fn write_fmt<D: Display>(&mut self, text: D)
    where
        D: Drop,
        ensures before { OnOk self.new.written (IsOk self.old.written) }
        ensures appends { OnOk self.new.written (IfSome (D.output text) (Appends (W.contents self.old.writer) (W.contents self.new.writer))) }
    {
        if self.written.is_ok() {
            self.written = self.writer.write_fmt(text);
        }
    }

    // Any bytes, as they are.
    pub fn text(&mut self, text: &[u8])
        ensures before { OnOk self.new.written (IsOk self.old.written) }
        ensures appends { OnOk self.new.written (Appends (W.contents self.old.writer) (W.contents self.new.writer) text.now) }
    {
        if self.written.is_ok() {
            self.written = self.writer.write_all(text);
        }
    }

    // A number alone, in decimal.
    // Stays (plainer): one `write!` under a name, whose clause says the digits. The programs write by it the numbers that tell what they found.
    pub fn number(&mut self, n: u64)
        ensures before { OnOk self.new.written (IsOk self.old.written) }
        ensures appends { OnOk self.new.written (Appends (W.contents self.old.writer) (W.contents self.new.writer) (decimal n)) }
    {
        write!(self, "{n}");
    }

    pub fn finish(self) -> io::Result<()>
    where
        W: Drop,
        ensures { result ≡ self.written }
    {
        let Page {
            writer: _writer,
            written,
        } = self;
        written
    }
}
