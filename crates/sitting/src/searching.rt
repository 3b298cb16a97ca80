ghost use Rattle.std.specs.Prelude.{◌≡◌, true};
ghost use Rattle.session.specs.Contents.{content};
ghost use Rattle.session.specs.Series.{Book, from};
ghost use Rattle.session.specs.Law.{content_of};
ghost use Rattle.sitting.specs.Outputs.{works};
ghost use Rattle.sitting.specs.Searches.{is_settled};

use memory::Memory;
use runs::{Verdict, Worked};
use session::{Refusal, Session};

// The most works, and the effort of each.
const MOST_WORKS: u32 = 1000;

const EFFORT: u32 = 1_000_000;

// Whether no further work will tell more.
fn is_settled(worked: Result<Worked, Refusal>) -> bool
    ensures { result ≡ is_settled worked }
{
    match worked {
        Ok(worked) => worked.verdict != Verdict::More,
        Err(_) => true,
    }
}

// Works until the answer is settled, or as often as a sitting does; further works would change nothing.
pub(crate) fn search<M: Memory>(session: &mut Session<M>)
    ensures { (b : Book) → content session.old ≡ content_of M.machine b → content session.new ≡ content_of M.machine (from b (works 1000)) }
{
    for _ in 0..MOST_WORKS {
        if is_settled(session.work(EFFORT)) {
            return;
        }
    }
}
