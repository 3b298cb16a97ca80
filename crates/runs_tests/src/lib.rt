// Tests of the crates `runs` and `replay` from outside: the search over lists of runs that were written by hand, and
// each refusal of a written run. They stand apart so that the libraries are not proved again for them.

#![tactic(auto)]

#[cfg(test)]
mod playing;
#[cfg(test)]
mod searching;
#[cfg(test)]
mod tables;
