// Runs of records with one key.
// Stays (C interface), point 6: records stand in the lent room from a place on, often with what they point to behind them, since C lends one buffer and there is no heap.
ghost use Rattle.std.specs.Prelude.{ℕ, ◌+◌, ◌*◌, ◌≤◌, ◌<◌, length};
ghost use Rattle.records.specs.Buffer.{payload_in};
ghost use Rattle.records.specs.Runs.{Run, PayloadsPut};

// The end of the run that record i begins: the next record with another key, or the end of all n.
pub fn run_end(m: &[u64], at: usize, n: usize, i: usize) -> usize
    requires { (i < n) × (at + 2 * n ≤ length m.now) }
    ensures { Run m.now at n i result }
{
    let key = m[at + 2 * i];
    for e in i + 1..n {
        if m[at + 2 * e] != key {
            return e;
        }
    }
    n
}

// Writes a word behind `to` by the payload of each record from number i up to e.
pub fn put_by_payload(m: &mut [u64], at: usize, to: usize, i: usize, e: usize, x: u64)
    requires i_le_e { (i ≤ e) × (at + 2 * e ≤ to) }
    requires by_index { (j : ℕ) → i ≤ j → j < e → to + payload_in m.old at j < length m.old }
    ensures { PayloadsPut m.old m.new at to i e x }
{
    for j in i..e {
        let payload = m[at + 2 * j + 1] as usize;
        m[to + payload] = x;
    }
}
