// For tests only, and no part of the product: leaves of the library under C names of their own, so that a program outside can compare and time them:
// root, length, rounding and cell key on any bit pattern, the root of a whole number; clearing and sorting; components and chains. None has a `requires`: what a table asks is tested first.
// Stays (C interface), point 6: C lends a table's words with its numbers beside them, and there is no heap.
#![tactic(auto)]

ghost use Rattle.std.specs.Prelude.{false, true, ◌≡◌, ℕ, ◌*◌, ◌+◌, ◌/◌, ◌<◌, ◌≤◌, eqb, get_or, length, replicate, IfSome, ◌^◌};
ghost use Rattle.chains.specs.ByWord.{word_bucket};
ghost use Rattle.chains.specs.Chains.{Linked};
ghost use Rattle.chains.specs.Links.{id_in, link_to};
ghost use Rattle.components.specs.Table.{ComponentTable};
ghost use Rattle.leaf_exports.specs.Exports.{LinksFound, BelowUpTo, RootOr, LengthOr, in_reach};
ghost use Rattle.lists.specs.Regions.{view};
ghost use Rattle.root.specs.Drawn.{WholeRoot};
ghost use Rattle.rounding.specs.Rounding.{half_away, key};
ghost use Rattle.sorting.specs.Sorting.{SortedRecords};

use chains::{Chains, Hashed};
use root::Drawing;

// The square root of x; x itself where it is a NaN, infinite or below zero.
#[unsafe(no_mangle)]
pub extern "C" fn export_sqrt(x: f64) -> f64
    ensures { RootOr x result }
{
    let infinity: f64 = 1.0 / 0.0;
    if 0.0 <= x {
        if x < infinity {
            return root::sqrt(x);
        }
    }
    x
}

// Is x at most 2^1021 in magnitude? A NaN is not.
fn in_reach(x: f64) -> bool
    ensures { result ≡ in_reach x }
{
    let bound = f64::from_bits(0x7fc0_0000_0000_0000);
    -bound <= x && x <= bound
}

// The length of a segment with the extents x and y; x itself where one of them is a NaN or beyond 2^1021.
#[unsafe(no_mangle)]
pub extern "C" fn export_hypot(x: f64, y: f64) -> f64
    ensures { LengthOr x y result }
{
    if in_reach(x) {
        if in_reach(y) {
            return hypot::hypot(x, y);
        }
    }
    x
}

// The largest whole number whose square does not exceed n, drawn from its 32 pairs of digits.
#[unsafe(no_mangle)]
pub extern "C" fn export_whole_root(n: u64) -> u64
    ensures { WholeRoot n result }
{
    let drawing = Drawing { root: 0, rest: 0 }.bring_down(n, 32);
    drawing.root
}

// x to a whole number, a half going away from zero; x itself where it is not finite.
#[unsafe(no_mangle)]
pub extern "C" fn export_round(x: f64) -> f64
    ensures { result ≡ half_away x }
{
    rounding::round(x)
}

// The cell of the coordinate x.
#[unsafe(no_mangle)]
pub extern "C" fn export_cell_key(x: f64, eps: f64) -> i64
    ensures { result ≡ key eps x }
{
    rounding::quantized_key(x, eps)
}

// Sorts as many records as the slice has room for: half of it is records, half scratch.
#[unsafe(no_mangle)]
pub extern "C" fn export_sort_records(m: &mut [u64])
    ensures { SortedRecords m.old m.new (length m.old / 4) }
{
    let n = m.len() / 4;
    sorting::sort_records(m, n);
}

#[unsafe(no_mangle)]
pub extern "C" fn export_zero(w: &mut [u64])
    ensures { w.new ≡ replicate (length w.old) 0 }
{
    words::zero(w);
}

// Are the e words from `at` on below m?
fn all_below(w: &[u64], at: usize, e: usize, m: usize) -> bool
    requires { at + e ≤ length w.now }
    ensures { result ≡ true → BelowUpTo w.now at e m }
{
    w[at..at + e].iter().all(|word| (*word as usize) < m)
}

// The components of n items, whose labels stand behind the table, which is at the front of w.
#[unsafe(no_mangle)]
pub extern "C" fn table_components(w: &mut [u64], n: usize, k: usize, m: usize) -> bool
    ensures { (result ≡ true → ComponentTable (view w.old (n + n + m) (n * k)) n k m 0 w.old w.new) × (result ≡ false → w.new ≡ w.old) }
{
    if k == 0 {
        return false;
    }
    let long = w.len();
    if n > long / 2 {
        return false;
    }
    if m > long - n - n {
        return false;
    }
    if n > (long - n - n - m) / k {
        return false;
    }
    if all_below(w, n + n + m, n * k, m) {
        let (table, labels) = w.split_at_mut(n + n + m);
        components::components(table, &labels[..n * k], k, m);
        true
    } else {
        false
    }
}

// A place, or none, as a word: 0 for none, else the place and 1.
fn link(place: Option<usize>) -> u64
    requires { IfSome place (λ k. k < 2 ^ 63) }
    ensures { place ≡ id_in result }
{
    match place {
        Some(k) => k as u64 + 1,
        None => 0,
    }
}

// Answers each word asked for by its link.
fn answer(table: Hashed, m: &[u64], keys: &[u64], asked: &[u64], found: &mut [u64])
    requires linked { Linked (word_bucket keys.now table.chains.nb) m.now table.chains.at table.chains.nb (length keys.now) }
    requires asked_in_bounds { length asked.now ≤ length found.old }
    ensures { LinksFound keys.now asked.now found.new (length asked.now) }
{
    for (i, word) in asked.iter().enumerate() {
        found[i] = link(table.find_word(m, keys, *word));
    }
}

// A table of the words of `keys` in m, and each word asked for looked up in it.
#[unsafe(no_mangle)]
pub extern "C" fn table_words(
    m: &mut [u64],
    nb: usize,
    keys: &[u64],
    asked: &[u64],
    found: &mut [u64],
) -> bool
    ensures { (result ≡ true → LinksFound keys.now asked.now found.new (length asked.now)) ×
        (result ≡ false → found.new ≡ found.old) }
{
    if nb == 0 {
        return false;
    }
    if nb > 4294967296 {
        return false;
    }
    let long = m.len();
    if nb > long / 2 {
        return false;
    }
    if keys.len() > long - nb - nb {
        return false;
    }
    if asked.len() > found.len() {
        return false;
    }
    let table = Hashed {
        chains: Chains { at: 0, nb },
    };
    table.index_words(m, keys);
    answer(table, m, keys, asked, found);
    true
}
