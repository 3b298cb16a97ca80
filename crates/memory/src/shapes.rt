ghost use Rattle.std.specs.Prelude.{◌≤◌};

// What a memory is made for: processes 1 to P, variables 0 to V, and a ceiling for timestamps.
#[derive(Clone, Copy)]
pub struct Shape {
    pub(crate) processes: u8,
    pub(crate) variables: u8,
    pub(crate) ceiling: u8,
    ghost peopled: { 1 ≤ processes },
    ghost crowd: { processes ≤ 4 },
    ghost stored: { 1 ≤ variables },
    ghost small: { variables ≤ 4 },
    ghost low: { ceiling ≤ 24 },
}
