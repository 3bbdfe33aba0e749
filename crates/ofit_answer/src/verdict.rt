ghost use Rattle.std.specs.Prelude.{◌≡◌, ◌<◌, IfOk, length};
ghost use Rattle.std.specs.List.{flat_map};
ghost use Rattle.ofit_study.specs.Study.{names_of};
ghost use Rattle.ofit_answer.specs.Named.{IsNamed};
ghost use Rattle.ofit_answer.specs.VerdictText.{group_fault, pair_fault, flow_fault, verdict_text};

use itoa::Buffer;
use ofit_check::Verdict;
use ofit_study::Study;
use std::alloc::{AllocError, Global};

/// The pieces in one text.
pub(crate) fn joined(alloc: Global, pieces: &[&[u8]]) -> Result<Vec<u8>, AllocError>
    ensures { IfOk result (λ text. text.items ≡ flat_map (λ p. p.now) pieces.now) }
{
    let mut text = Vec::new(alloc);
    for piece in pieces {
        text.extend_from_slice(piece)?;
    }
    Ok(text)
}

/// The line that tells of a group.
pub(crate) fn group_line<'a>(
    alloc: Global,
    study: &'a Study,
    fault: &'a str,
    place: u32,
) -> Result<Vec<u8>, AllocError>
    requires { place < length (names_of study.now) }
    ensures { IfOk result (λ text. text.items ≡ group_fault fault.now study.now place) }
{
    let pieces: [&[u8]; 5] = [
        b"fails ",
        fault.as_bytes(),
        b" ",
        study.group_name(place),
        b"\n",
    ];
    joined(alloc, &pieces)
}

/// The line that tells of a pair.
fn pair_line(alloc: Global, study: &Study, index: u32) -> Result<Vec<u8>, AllocError>
    requires { index < length study.now.pairs }
    ensures { IfOk result (λ text. text.items ≡ pair_fault study.now index) }
{
    let count = study.pair_count();
    prove!(index < count);
    let (low, high) = study.pair_at(index);
    let pieces: [&[u8]; 5] = [
        b"fails order ",
        study.group_name(low),
        b" ",
        study.group_name(high),
        b"\n",
    ];
    joined(alloc, &pieces)
}

/// The line that tells of a flow.
fn flow_line(alloc: Global, number: u32, fault: &'static str) -> Result<Vec<u8>, AllocError>
    ensures { IfOk result (λ text. text.items ≡ flow_fault number fault.now) }
{
    let mut digits = Buffer::new();
    let pieces: [&[u8]; 5] = [
        b"fails flow ",
        digits.format(number).as_bytes(),
        b" ",
        fault.as_bytes(),
        b"\n",
    ];
    joined(alloc, &pieces)
}

/// The line of a verdict on a sheet of the study, with the names of the groups that it speaks of.
pub fn verdict_line(alloc: Global, study: &Study, verdict: Verdict) -> Result<Vec<u8>, AllocError>
    requires { IsNamed study.now verdict }
    ensures { IfOk result (λ text. text.items ≡ verdict_text study.now verdict) }
{
    match verdict {
        Verdict::Settings => Vec::from_slice(alloc, b"fails settings\n"),
        Verdict::Size => Vec::from_slice(alloc, b"fails size\n"),
        Verdict::GroupMissing(place) => group_line(alloc, study, "missing", place),
        Verdict::Disobeys(index) => pair_line(alloc, study, index),
        Verdict::OutOfBounds(place) => group_line(alloc, study, "bounds", place),
        Verdict::FlowNotPair(number) => flow_line(alloc, number, "not a pair"),
        Verdict::FlowOrder(number) => flow_line(alloc, number, "out of order"),
        Verdict::FlowNotTight(number) => flow_line(alloc, number, "not tight"),
        Verdict::Balance(place) => group_line(alloc, study, "balance", place),
        Verdict::Passes => Vec::from_slice(alloc, b"passes\n"),
    }
}
