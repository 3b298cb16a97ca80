// A text cut at a byte, and the words of a line.

ghost use Rattle.std.specs.Prelude.{◌≡◌, ◌==◌, ℕ, List, Option};
ghost use Rattle.std.specs.Fn.{FnOnceReturnsAt};
ghost use Rattle.std.specs.Option.{option_map};
ghost use Rattle.std.specs.List.{position};
ghost use Rattle.steps.specs.Chains.{plain};
ghost use Rattle.steps.specs.Cutting.{front, back, word_after};

// Where the end stands first.
fn place(text: &[u8], end: u8) -> Option<usize>
    ensures { result ≡ position (λ b. b == end) text.now }
{
    text.iter().position(|b| *b == end)
}

// What stands before the first such byte, and what follows from there.
pub(crate) fn cut(text: &[u8], end: u8) -> (&[u8], &[u8])
    ensures before { result.0.now ≡ front end text.now }
    ensures after { result.1.now ≡ back end text.now }
{
    text.split_at(place(text, end).unwrap_or(text.len()))
}

// The word after a beginning of the text, as it is read, and what follows it.
pub(crate) fn word_after<'a, T, F: FnOnce(&[u8]) -> Option<T>>(
    text: &'a [u8],
    start: &[u8],
    read: F,
) -> Option<(T, &'a [u8])>
    requires { F.IsAlwaysCallable read }
    ensures { (meant : List ℕ → Option T) → ((w : List ℕ) (r : Option T) → FnOnceReturnsAt F.FnOnce read w r → r ≡ meant w) → option_map plain result ≡ word_after start.now meant text.now }
{
    let (word, rest) = cut(text.strip_prefix(start)?, b' ');
    Some((read(word)?, rest))
}
