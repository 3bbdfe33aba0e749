ghost use Rattle.std.specs.Prelude.{◌≡◌, ◌<◌, ◌+◌, ◌-◌, ◌^◌, if◌then◌else◌};
ghost use Rattle.ofit_script.specs.Lines.{is_print};

use ofit_study::Edit;

/// A line of a script.
#[derive(Drop)]
pub enum Line {
    /// An edit of the study.
    Change(Edit),
    /// The report of the study as it then stands.
    Report,
    /// A sheet of the study as it then stands.
    Sheet,
}

/// Whether the line prints a report or a sheet.
fn is_print(line: &Line) -> bool
    ensures { result ≡ is_print line.now }
{
    match line {
        Line::Change(_) => false,
        Line::Report => true,
        Line::Sheet => true,
    }
}

/// A number of lines that print, with this line besides.
pub(crate) fn with_print(count: u32, line: &Line) -> u32
    requires { count < 2 ^ 32 - 1 }
    ensures { result ≡ count + (if is_print line.now then 1 else 0) }
{
    if is_print(line) { count + 1 } else { count }
}
