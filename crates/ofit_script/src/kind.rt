ghost use Rattle.std.specs.Prelude.{◌≡◌, ◌≤◌, ◌<◌, ◌↔◌, ◌+◌, IsTrue, MatchOption, false, length, true};
ghost use Rattle.ofit_script.specs.declared.kind.Kind.{Kind as TheKind};
ghost use Rattle.ofit_script.specs.Kinds.{kind_fields, kind_name, prints};

/// What a line does.
#[derive(Clone, Copy)]
pub(crate) enum Kind {
    /// Puts in a row.
    Add,
    /// Takes a row away.
    Remove,
    /// Gives a row another value.
    Value,
    /// Gives a row another weight.
    Weight,
    /// Puts in a pair.
    Relate,
    /// Takes a pair away.
    Unrelate,
    /// Prints the report.
    Report,
    /// Prints the sheet.
    Sheet,
}

/// Whether both texts are the same.
fn is(text: &[u8], other: &[u8]) -> bool
    ensures { IsTrue result ↔ (text.now ≡ other.now) }
{
    text == other
}

/// The kind of the line that begins with this field.
pub(crate) fn kind_of(text: &[u8]) -> Option<Kind>
    ensures { MatchOption result ((k : TheKind) → text.now ≡ kind_name k → ⊥) (λ k. text.now ≡ kind_name k) }
{
    if is(text, b"add") {
        Some(Kind::Add)
    } else if is(text, b"remove") {
        Some(Kind::Remove)
    } else if is(text, b"value") {
        Some(Kind::Value)
    } else if is(text, b"weight") {
        Some(Kind::Weight)
    } else if is(text, b"relate") {
        Some(Kind::Relate)
    } else if is(text, b"unrelate") {
        Some(Kind::Unrelate)
    } else if is(text, b"report") {
        Some(Kind::Report)
    } else if is(text, b"sheet") {
        Some(Kind::Sheet)
    } else {
        None
    }
}

/// How many fields a line of this kind has.
pub(crate) fn count_of(kind: Kind) -> usize
    ensures { result ≡ 1 + length (kind_fields kind) }
{
    match kind {
        Kind::Add => 4,
        Kind::Remove => 2,
        Kind::Value | Kind::Weight => 3,
        Kind::Relate | Kind::Unrelate => 3,
        Kind::Report | Kind::Sheet => 1,
    }
}

/// Whether a line of this kind prints a report or a sheet.
fn is_print(kind: Kind) -> bool
    ensures { result ≡ prints kind }
{
    match kind {
        Kind::Report | Kind::Sheet => true,
        _ => false,
    }
}

/// Whether a line of this kind prints, and as many as may be do so before it.
pub(crate) fn prints_too_many(kind: Kind, count: u32, most: u32) -> bool
    ensures yes { result ≡ true → (prints kind ≡ true) × (most ≤ count) }
    ensures no { result ≡ false → prints kind ≡ true → count < most }
{
    is_print(kind) && count >= most
}
