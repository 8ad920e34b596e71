// Candidates as words: five a candidate, the point's bits, mesh vertex + 1 or 0, and faces.
// Stays (C interface), point 6: a candidate is a number in the list of words that the operation writes, and is asked for by it.
ghost use Rattle.std.specs.Prelude.{◌≡◌, ◌+◌, ◌*◌, ◌/◌, ◌<◌, length};
ghost use Rattle.lists.specs.Lists.{every, up_to};
ghost use Rattle.cases.specs.Comparing.{stands_at, free, place_of};

fn is_at(candidates: &[u64], i: usize, point: [u64; 3]) -> bool
    requires { 5 * i + 2 < length candidates.now }
    ensures { result ≡ stands_at candidates.now point i }
{
    candidates[5 * i..5 * i + 3] == point[..]
}

// Candidate i is the one at `at`, or comes neither from mesh vertex 0 nor from 1 and is not at the point.
fn is_free(candidates: &[u64], i: usize, point: [u64; 3], at: usize) -> bool
    requires { 5 * i + 3 < length candidates.now }
    ensures { result ≡ free candidates.now point at i }
{
    i == at || !(matches!(candidates[5 * i + 3], 1 | 2) || is_at(candidates, i, point))
}

// No other candidate than this one comes from mesh vertex 0 or 1, or is at the point.
pub fn is_alone(candidates: &[u64], point: [u64; 3], at: usize) -> bool
    ensures { result ≡ every (free candidates.now point at) (up_to (length candidates.now / 5)) }
{
    (0..candidates.len() / 5).all(|i| is_free(candidates, i, point, at))
}

// The number of the first candidate at this point.
pub fn place_of(candidates: &[u64], point: [u64; 3]) -> Option<usize>
    ensures { result ≡ place_of candidates.now point }
{
    (0..candidates.len() / 5).find(|i| is_at(candidates, *i, point))
}
