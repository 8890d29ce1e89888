// Choices by pseudo-random words.
ghost use Rattle.std.specs.Prelude.{◌<◌, length};

// One of those there are, by a word that was drawn.
pub(crate) fn pick<T: Copy>(all: &[T], choice: u64) -> T
    requires { 0 < length all.now }
{
    all[(choice % all.len() as u64) as usize]
}
