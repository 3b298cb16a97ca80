// The memory and the shape, which the first two lines give.

ghost use Rattle.std.specs.Prelude.{◌≡◌};
ghost use Rattle.steps.specs.Chains.{rejoined};
ghost use Rattle.steps.specs.Reading.{left_of};
ghost use Rattle.steps.specs.Settings.{kind_of, shape_of, setting_of};

use super::lines::Lines;
use super::numbers::byte_after;
use super::wrongs::Wrong;
use memory::{Kind, Shape};

#[derive(Clone, Copy)]
pub struct Setting {
    pub kind: Kind,
    pub shape: Shape,
}

// Why there is no setting.
#[derive(Clone, Copy)]
pub enum Failing {
    NoMemory,
    NoShape,
    At { line: usize, wrong: Wrong },
}

fn kind_named(line: &[u8]) -> Option<Kind>
    ensures { result ≡ kind_of line.now }
{
    match line {
        b"sequential" => Some(Kind::Sequential),
        b"release-acquire" => Some(Kind::ReleaseAcquire),
        _ => None,
    }
}

fn read_shape(line: &[u8]) -> Option<Shape>
    ensures { result ≡ shape_of line.now }
{
    let (processes, rest) = byte_after(line, b"processes ")?;
    let (variables, rest) = byte_after(rest, b" variables ")?;
    let (ceiling, rest) = byte_after(rest, b" ceiling ")?;
    if !rest.is_empty() {
        return None;
    }
    Shape::new(processes, variables, ceiling)
}

// The setting that the first two lines give.
pub(crate) fn read_setting(lines: &mut Lines) -> Result<Setting, Failing>
    ensures { rejoined result (left_of lines.new) ≡ setting_of (left_of lines.old) }
{
    let first = lines.next().ok_or(Failing::NoMemory)?;
    let kind = kind_named(first.text).ok_or(Failing::At {
        line: first.number,
        wrong: Wrong::Memory,
    })?;
    let second = lines.next().ok_or(Failing::NoShape)?;
    let shape = read_shape(second.text).ok_or(Failing::At {
        line: second.number,
        wrong: Wrong::Shape,
    })?;
    Ok(Setting { kind, shape })
}
