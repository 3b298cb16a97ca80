ghost use Rattle.std.specs.Prelude.{◌≡◌, ◌*◌, ◌≤◌, length};
ghost use Rattle.std.specs.List.{AllByRecursion};
ghost use Rattle.text.specs.Lines.{Small};
ghost use Rattle.text.specs.Writing.{over};
ghost use Rattle.program.specs.Program.{lines_text, Six};
ghost use Rattle.replay.specs.Playing.{record_fields};
ghost use Rattle.session.specs.Recited.{InField};
ghost use Rattle.session.specs.Reports.{report_lines, switches_in, verdict_fields, verdict_number};

use arrayvec::ArrayVec;
use program::LINE;
use runs::{MOST_STEPS, Verdict};
use text::write_line;
use worlds::Record;

// The most lines of a report: the verdict line, and one for each step.
const MOST_LINES: usize = MOST_STEPS + 1;

fn number_of(verdict: Verdict) -> u16
    ensures value { result ≡ verdict_number verdict }
    ensures bound { result ≤ 3 }
{
    match verdict {
        Verdict::Found => 1,
        Verdict::None => 2,
        Verdict::More => 3,
    }
}

// How many of the steps are switches.
fn switches(records: &[Record]) -> u16
    requires { length records.now ≤ 24 }
    ensures value { result ≡ switches_in records.now }
    ensures bound { result ≤ 24 }
{
    let mut switches = 0;
    for step in records {
        switches += u16::from(step.switch);
    }
    switches
}

// The numbers of the verdict line.
fn heading(verdict: Verdict, records: &[Record]) -> [u16; 6]
    requires { length records.now ≤ 24 }
    ensures value { result ≡ verdict_fields verdict (length records.now) (switches_in records.now) }
    ensures small { Small result }
{
    let steps = records.len() as u16;
    [0, number_of(verdict), steps, switches(records), 0, 0]
}

// The numbers of the line of a step.
fn fields(number: u16, step: Record) -> [u16; 6]
    requires { (number ≤ 9999) × (step.choice ≤ 9999) }
    ensures value { result ≡ record_fields number step }
    ensures small { Small result }
{
    [
        number,
        u16::from(step.process),
        u16::from(step.label),
        step.choice as u16,
        u16::from(step.value),
        u16::from(step.switch),
    ]
}

// The numbers of the lines of a report: the verdict line, and a line for each step.
pub(crate) fn lines(verdict: Verdict, records: &[Record]) -> ArrayVec<[u16; 6], MOST_LINES>
    requires few { length records.now ≤ 24 }
    requires small { AllByRecursion InField records.now }
    ensures value { result.items ≡ report_lines verdict records.now }
    ensures six { AllByRecursion Six result.items }
{
    let mut lines = ArrayVec::new();
    lines.push(heading(verdict, records));
    for (i, step) in records.iter().enumerate() {
        lines.push(fields((i + 1) as u16, *step));
    }
    lines
}

// Writes lines to the front of a buffer that is long enough.
pub(crate) fn write_lines(lines: &[[u16; 6]], out: &mut [u8])
    requires six { AllByRecursion Six lines.now }
    requires room { 25 * length lines.now ≤ length out.old }
    ensures { out.new ≡ over (lines_text lines.now) out.old }
{
    for (i, line) in lines.iter().enumerate() {
        let at = LINE * i;
        let _ = write_line(line, &mut out[at..at + LINE]);
    }
}
