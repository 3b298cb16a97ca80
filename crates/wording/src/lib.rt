// Words that the programs print.

#![tactic(auto)]

ghost use Rattle.std.specs.Prelude.{◌≡◌, Some};
ghost use Rattle.wording.specs.Amounts.{amount_words};

use std::fmt;

// A number of things, with their name for one and for more.
#[derive(Drop)]
pub struct Amount<'a> {
    pub count: usize,
    pub one: &'a str,
    pub many: &'a str,
}

impl<'a> Amount<'a> {
    pub fn new(count: usize, one: &'a str, many: &'a str) -> Amount<'a>
        ensures count { result.count ≡ count }
        ensures one { result.one.now ≡ one.now }
        ensures many { result.many.now ≡ many.now }
    {
        Amount { count, one, many }
    }
}

impl fmt::Display for Amount<'_> {
    ghost output = { λ a. Some (amount_words a.count a.one.now a.many.now) };

    fn fmt<W: fmt::Write>(&self, f: &mut fmt::Formatter<W>) -> fmt::Result {
        let count = self.count;
        let name = if count == 1 { self.one } else { self.many };
        write!(f, "{count} {name}")
    }
}
