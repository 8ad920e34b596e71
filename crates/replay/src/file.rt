// A file's bytes as a row of 64-bit words, the least byte first. No contract can say which bytes a file holds; what is said here is what becomes of them.
ghost use Rattle.std.specs.Prelude.{◌≡◌, ◌≤◌, length, take};
ghost use Rattle.replay.specs.Words.{Loaded};

// Puts the file's words at the front of `words`, as many as there is room for, and answers how many: none, if the file ends within a word.
pub fn load(file: &[u8], words: &mut [u64]) -> usize
    ensures within { (result ≤ length words.new) × (result ≡ length (take result words.new)) }
    ensures read { Loaded file.now words.new result }
{
    let (chunks, part) = file.as_chunks::<8>();
    if chunks.len() < words.len() && !part.is_empty() {
        return 0;
    }
    let n = chunks.len().min(words.len());
    for (i, bytes) in chunks[..n].iter().enumerate() {
        words[i] = u64::from_le_bytes(*bytes);
    }
    n
}
