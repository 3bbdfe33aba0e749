ghost use Rattle.std.specs.Prelude.{◌≡◌, ◌<◌, IfOk, length};
ghost use Rattle.ofit_study.specs.Study.{names_of};
ghost use Rattle.ofit_answer.specs.Named.{IsPeakNamed};
ghost use Rattle.ofit_answer.specs.PeakVerdictText.{side_fault, least_fault, peak_verdict_text};

use crate::verdict::{group_line, joined};
use itoa::Buffer;
use ofit_check::PeakVerdict;
use ofit_study::Study;
use std::alloc::{AllocError, Global};

/// The line that tells of a side, and of a group of it.
fn side_line<'a>(
    alloc: Global,
    study: &'a Study,
    slope: &'a str,
    number: u32,
    place: u32,
) -> Result<Vec<u8>, AllocError>
    requires { place < length (names_of study.now) }
    ensures { IfOk result (λ text. text.items ≡ side_fault slope.now number study.now place) }
{
    let mut digits = Buffer::new();
    let pieces: [&[u8]; 7] = [
        b"fails ",
        slope.as_bytes(),
        b" ",
        digits.format(number).as_bytes(),
        b" ",
        study.group_name(place),
        b"\n",
    ];
    joined(alloc, &pieces)
}

/// The line that tells of two sides which cost less than the values.
fn least_line(alloc: Global, number: u32) -> Result<Vec<u8>, AllocError>
    ensures { IfOk result (λ text. text.items ≡ least_fault number) }
{
    let mut digits = Buffer::new();
    let pieces: [&[u8]; 3] = [b"fails not least ", digits.format(number).as_bytes(), b"\n"];
    joined(alloc, &pieces)
}

/// The line of a verdict on a peaked sheet of the study, with the names of the groups that it speaks of.
pub fn peak_verdict_line(
    alloc: Global,
    study: &Study,
    verdict: PeakVerdict,
) -> Result<Vec<u8>, AllocError>
    requires { IsPeakNamed study.now verdict }
    ensures { IfOk result (λ text. text.items ≡ peak_verdict_text study.now verdict) }
{
    match verdict {
        PeakVerdict::Settings => Vec::from_slice(alloc, b"fails settings\n"),
        PeakVerdict::Shape(place) => group_line(alloc, study, "shape", place),
        PeakVerdict::Cost => Vec::from_slice(alloc, b"fails cost\n"),
        PeakVerdict::Rise(number, place) => side_line(alloc, study, "rise", number, place),
        PeakVerdict::Fall(number, place) => side_line(alloc, study, "fall", number, place),
        PeakVerdict::NotLeast(number) => least_line(alloc, number),
        PeakVerdict::Passes => Vec::from_slice(alloc, b"passes\n"),
    }
}
