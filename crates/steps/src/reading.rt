// The lines of the input, one after another.

ghost use Rattle.std.specs.Prelude.{◌≡◌, ◌<◌, ◌∷◌, length, drop};
ghost use Rattle.std.specs.Iterator.{YieldsFirstBy, item_count};
ghost use Rattle.steps.specs.Cutting.{lines_of, numbered};
ghost use Rattle.steps.specs.Reading.{left_of, the_line};

use super::cutting::cut;
use super::lines::{Line, Lines};

// What follows a line's end.
fn after_end(text: &[u8]) -> &[u8]
    ensures { result.now ≡ drop 1 text.now }
{
    text.get(1..).unwrap_or(text)
}

// The first line of a text, and what follows its end.
#[tactic(auto, using(crate::proofs::Turns::line_first, crate::proofs::Turns::less_left))]
fn split_line(text: &[u8]) -> (&[u8], &[u8])
    requires { 0 < length text.now }
    ensures lines { lines_of text.now ≡ result.0.now ∷ lines_of result.1.now }
    ensures shorter { length result.1.now < length text.now }
{
    let (line, rest) = cut(text, b'\n');
    (line, after_end(rest))
}

impl<'a> Lines<'a> {
    pub(crate) fn new(text: &'a [u8]) -> Lines<'a>
        ensures { left_of result ≡ numbered 0 (lines_of text.now) }
    {
        Lines {
            rest: text,
            passed: 0,
        }
    }
}

// The lines that are not empty.
impl<'a> Iterator for Lines<'a> {
    type Item = Line<'a>;

    ghost next_gives = { YieldsFirstBy the_line left_of };

    ghost remaining = { item_count left_of };

    fn next(&mut self) -> Option<Line<'a>> {
        while !self.rest.is_empty() {
            let (text, rest) = split_line(self.rest);
            self.rest = rest;
            self.passed += 1;
            if !text.is_empty() {
                return Some(Line {
                    number: self.passed,
                    text,
                });
            }
        }
        None
    }
}
