// Runs of words, by whatever says the type of one.
ghost use Rattle.std.specs.Prelude.{◌≡◌, ◌<◌, ℕ, min, length, slice_index};
ghost use Rattle.std.specs.List.{SameFrom};

// From how many words on a table pays: a thousand to some thousands, by how well the processor foresees them.
pub const LONG: usize = 8192;

// Puts what type_of answers of each word into types, for as many as both slices hold, and answers how many there are.
// The rest of types stays as it was.
pub fn sort<F: Fn(u32) -> u8>(words: &[u32], types: &mut [u8], type_of: F) -> usize
    requires { F.IsAlwaysCallable type_of }
    ensures count { result ≡ min (length words.now) (length types.old) }
    ensures sorted { (k : ℕ) → k < result → F.post type_of (slice_index words.now k) (slice_index types.new k) }
    ensures rest { SameFrom types.old types.new result }
{
    let n = words.len().min(types.len());
    for i in 0..n {
        types[i] = type_of(words[i]);
    }
    n
}
