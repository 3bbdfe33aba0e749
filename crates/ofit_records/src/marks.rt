ghost use Rattle.std.specs.Prelude.{◌≡◌};
ghost use Rattle.ofit_records.specs.Records.{without_marks};

/// The byte order mark in UTF-8.
const MARK: [u8; 3] = [0xEF, 0xBB, 0xBF];

/// The bytes behind the byte order marks at their front.
pub fn after_marks(bytes: &[u8]) -> &[u8]
    ensures { result.now ≡ without_marks bytes.now }
{
    let mut rest = bytes;
    while let Some(behind) = rest.strip_prefix(&MARK) {
        rest = behind;
    }
    rest
}
