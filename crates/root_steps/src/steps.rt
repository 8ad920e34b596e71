// Steps of a root, written as they are drawn.
ghost use Rattle.std.specs.Prelude.{◌≡◌, ◌+◌, ◌*◌, ◌^◌, ◌≤◌, ◌<◌};
ghost use Rattle.root.specs.Drawn.{Appended};

use crate::spelling::print_row;
use page::Page;
use root::Drawing;
use std::io::Write;

// The numbers go through `number` and `print_row`, whose clauses say their digits.
fn print_heading<W: Write>(page: &mut Page<W>, step: u64, pair: u64)
    requires { pair < 4 }
{
    page.text(if step < 10 { b"step  " } else { b"step " });
    page.number(step);
    print_row(page, "  ", pair >> 1, 1, "");
    print_row(page, "", pair & 1, 1, "");
}

// Four lines: the rest with the pair behind it, what is tried, what is left, the root so far.
// Stays (plainer): no conversion to text; it writes by `write!`, as a step of the program.
fn print_step<W: Write>(
    page: &mut Page<W>,
    step: u64,
    pair: u64,
    width: usize,
    before: Drawing,
    after: Drawing,
)
    requires { (before.root < 2 ^ 61) × (pair < 4) }
{
    print_heading(page, step, pair);
    let brought_down = (before.rest << 2) + pair;
    print_row(page, " brought down       ", brought_down, width, "\n");
    let trial = (before.root << 2) + 1;
    if after.root & 1 == 1 {
        print_row(
            page,
            "         4 x root + 1       - ",
            trial,
            width,
            "  goes: 1\n",
        );
    } else {
        print_row(
            page,
            "         4 x root + 1         ",
            trial,
            width,
            "  does not go: 0\n",
        );
    }
    print_row(
        page,
        "         left                 ",
        after.rest,
        width,
        "\n",
    );
    print_row(
        page,
        "         root so far          ",
        after.root,
        width,
        "\n",
    );
}

// As root's `bring_down`, with each step written: the steps are numbered behind `done`.
// Stays (plainer): no conversion to text; it writes by `write!`, as a step of the program.
pub fn print_steps<W: Write>(
    page: &mut Page<W>,
    s: Drawing,
    word: u64,
    pairs: u64,
    done: u64,
    width: usize,
) -> Drawing
    requires { (pairs ≤ 32) × (word < 2 ^ (2 * pairs)) × (s.root < 2 ^ 30) × (done < 2 ^ 32) }
    ensures { Appended pairs word s.root s.rest result.root result.rest }
{
    let mut drawing = s;
    for left in (0..pairs).rev() {
        let pair = (word >> (2 * left)) & 3;
        let next = drawing.draw(pair);
        print_step(page, done + pairs - left, pair, width, drawing, next);
        drawing = next;
    }
    drawing
}
