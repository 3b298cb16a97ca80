ghost use Rattle.std.specs.Prelude.{◌+◌, ◌^◌, ◌<◌, length};

// A line that is not empty, with its number in the input.
#[derive(Clone, Copy)]
pub struct Line<'a> {
    pub number: usize,
    pub text: &'a [u8],
}

// What is left of the input, and how many lines were before it.
#[derive(Drop)]
pub struct Lines<'a> {
    pub rest: &'a [u8],
    pub passed: usize,
    ghost few: { passed + length rest.now < 2 ^ 64 },
}
