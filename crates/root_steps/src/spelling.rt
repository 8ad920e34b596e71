// A number in base two as text.
ghost use Rattle.std.specs.Prelude.{IsOk, OnOk};
ghost use Rattle.root_steps.specs.Spelling.{RowWritten};

use page::Page;
use std::io::Write;

// Writes n in base two between two texts, right in a field of `width` places.
// Stays (plainer): it is one `write!`; a type with a Display would take the same texts apart and put them together.
pub fn print_row<W: Write>(page: &mut Page<W>, label: &str, n: u64, width: usize, end: &str)
    ensures before { OnOk page.new.written (IsOk page.old.written) }
    ensures row { OnOk page.new.written (RowWritten (W.contents page.old.writer) (W.contents page.new.writer) label.now n width end.now) }
{
    write!(page, "{label}{n:>width$b}{end}");
}
