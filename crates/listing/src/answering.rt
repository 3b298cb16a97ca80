// What is printed for a text.

ghost use Rattle.std.specs.Prelude.{◌≡◌, IfOk, string_bytes};
ghost use Rattle.program.specs.Reading.{read};
ghost use Rattle.listing.specs.Words.{answered};

use super::refusals::Told;
use super::tables::Listed;
use program::Table;
use std::alloc::{AllocError, Global};

// The listing of the text's table, or a line that says why it is refused.
pub(crate) fn answer(heap: Global, text: &[u8]) -> Result<String, AllocError>
    ensures { IfOk result (λ s. string_bytes s ≡ answered (read text.now)) }
{
    let mut table = Table::empty();
    match table.read(text) {
        Ok(()) => {
            let listed = Listed(&table);
            format!(in heap; "{listed}")
        }
        Err(refusal) => {
            let told = Told(refusal);
            format!(in heap; "{told}\n")
        }
    }
}
