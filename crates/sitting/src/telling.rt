ghost use Rattle.std.specs.Prelude.{◌≡◌, ◌≤◌, length};
ghost use Rattle.sitting.specs.Outputs.{told};

use notice::Notice;
use session::Refusal;
use text::write_line;

// Writes a refusal as a line, and answers its length.
pub(crate) fn tell(why: Refusal, out: &mut [u8]) -> usize
    requires { 25 ≤ length out.old }
    ensures { (result, out.new) ≡ told why out.old }
{
    let notice = Notice::from(why);
    let _ = write_line(
        &[
            0,
            9,
            u16::from(notice.number),
            u16::from(notice.place),
            0,
            0,
        ],
        out,
    );
    25
}
