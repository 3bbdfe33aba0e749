ghost use Rattle.std.specs.Prelude.{◌≡◌, ◌<◌, All, IfOk, length};
ghost use Rattle.ofit_sheet.specs.Kept.{IsFractionInLimits};
ghost use Rattle.ofit_study.specs.Study.{names_of, problem_stated, meaning_of};
ghost use Rattle.ofit_cert.specs.OpenSpans.{open_span, AreOpenSpans};

use ofit_cut::Span;
use ofit_num::Frac;
use ofit_span::span_of;
use ofit_study::Study;
use std::alloc::{AllocError, Global};

/// The open span of the group at a place, at a value, as one of a balance of flows.
fn span_at(study: &Study, place: u32, value: &Frac) -> Span
    requires { place < length (names_of study.now) }
    ensures span { result ≡ open_span (meaning_of study.now.settings.loss) ((problem_stated study.now).rows place) ((problem_stated study.now).bounds place) value.now }
    ensures fraction { IsFractionInLimits value.now }
{
    let span = span_of(study, place, value);
    Span {
        least: span.least,
        greatest: span.greatest,
    }
}

/// The open spans of all groups at their values.
pub(crate) fn spans_of(
    alloc: Global,
    study: &Study,
    values: &[Frac],
) -> Result<Vec<Span>, AllocError>
    requires { length values.now ≡ length (names_of study.now) }
    ensures spans { IfOk result (λ spans. AreOpenSpans (meaning_of study.now.settings.loss) (problem_stated study.now) values.now spans.items) }
    ensures fractions { IfOk result (λ spans. All IsFractionInLimits values.now) }
{
    let mut spans = Vec::new(alloc);
    for place in 0..study.group_count() {
        spans.push(span_at(study, place, &values[place as usize]))?;
    }
    Ok(spans)
}
