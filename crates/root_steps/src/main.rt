// The roots of 169 and of 2 drawn on paper in base two, step by step, as docs/ROOT.md shows them: each step is root's own `draw`. Reads nothing.
#![tactic(auto)]

mod spelling;
mod steps;

ghost use Rattle.std.specs.Prelude.{◌≡◌, ◌^◌, ◌<◌};
ghost use Rattle.std.specs.Float.{binary64};
ghost use Rattle.std.specs.Float.Ieee.{to_bits};
ghost use Rattle.root.specs.Doubles.{bits};
ghost use Rattle.root.specs.Drawn.{Drawn};
ghost use Rattle.root.specs.Root.{root};

use page::Page;
use root::{Drawing, LEAD};
use spelling::print_row;
use std::io;
use std::io::Write;
use steps::print_steps;

// The root of a whole number of four pairs of digits. The numbers go through `number`, whose clause says their digits.
// Stays (plainer): no conversion to text; it writes as a step of the program.
fn print_whole<W: Write>(page: &mut Page<W>, n: u64)
    requires { n < 2 ^ 8 }
{
    let Drawing { root, rest } = print_steps(page, Drawing { root: 0, rest: 0 }, n, 4, 0, 9);
    page.number(n);
    page.text(b" = ");
    page.number(root);
    page.text(b" x ");
    page.number(root);
    page.text(b" + ");
    page.number(rest);
    page.text(b"\n");
}

// The bit pattern of the root of 2 as the library answers it.
fn root_of_two() -> u64
    ensures { result ≡ to_bits binary64 (root (bits 0x4000_0000_0000_0000)) }
{
    f64::to_bits(root::sqrt(2.0))
}

// The root of 2 with 106 zeros behind it. In pairs 2 is 10, and behind the point come as many pairs 00 as are asked for.
// Stays (plainer): no conversion to text; it writes by `write!`, as a step of the program.
fn print_digits_of_two<W: Write>(page: &mut Page<W>) -> Drawing
    ensures { Drawn (2 ^ 107) result.root result.rest × (result.root < 2 ^ 54) }
{
    let upper = print_steps(page, Drawing { root: 0, rest: 0 }, 2 * LEAD, 27, 0, 57);
    print_steps(page, upper, 0, 27, 27, 57)
}

// The root of 2 to the last digit of a double: 54 digits are drawn, one more than a double has, which rounds.
// Stays (plainer): no conversion to text; it writes by `write!`, as a step of the program.
fn print_two<W: Write>(page: &mut Page<W>) {
    let end = print_digits_of_two(page);
    if end.root & 1 == 1 {
        writeln!(
            page,
            "\nThe last digit is 1: the root lies above the middle of two doubles, and is rounded up."
        );
    } else {
        writeln!(
            page,
            "\nThe last digit is 0: the root lies below the middle of two doubles, and is rounded down."
        );
    }
    print_row(
        page,
        "rounded to 53 digits          ",
        (end.root + 1) >> 1,
        57,
        "\n",
    );
    let bits = root_of_two();
    print_row(
        page,
        "the digits of sqrt(2.0)       ",
        LEAD + bits % LEAD,
        57,
        "\n",
    );
    writeln!(page, "sqrt(2.0) has the bit pattern {bits:016x}");
}

fn main(rt: HostRuntime) -> io::Result<()> {
    let mut page = Page::new(io::writer(&rt));
    writeln!(page, "The root of 169, in base two 10 10 10 01\n");
    print_whole(&mut page, 169);
    writeln!(page, "\nThe root of 2, in base two 10.00 00 00 ..\n");
    print_two(&mut page);
    page.finish()
}
