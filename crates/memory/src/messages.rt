ghost use Rattle.std.specs.Prelude.{◌≡◌};
ghost use Rattle.memory.specs.Rules.{first_pool};
ghost use Rattle.memory.specs.MessageTable.{row_of, pool_of};

use super::shapes::Shape;
use super::views::View;
use std::array;

// A message: its value, and the view that it brings along.
#[derive(Clone, Copy)]
pub(crate) struct Message {
    pub(crate) value: u8,
    pub(crate) view: View,
}

// The messages at the start: one of value 0 for each variable of the shape.
pub(crate) fn first_messages(shape: Shape) -> [[Option<Message>; 25]; 5]
    ensures { pool_of result ≡ first_pool shape.variables }
{
    array::from_fn(
        |variable: usize| -> [Option<Message>; 25]
            ensures { row_of result ≡ first_pool shape.variables variable }
        {
            let mut slots = [None; 25];
            if variable <= usize::from(shape.variables) {
                slots[0] = Some(Message {
                    value: 0,
                    view: View::nought(),
                });
            }
            slots
        },
    )
}
