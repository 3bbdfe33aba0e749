ghost use Rattle.std.specs.Prelude.{◌≡◌, ◌↔◌, ◌≤◌, ◌<◌, IsTrue, IfOk, MatchOption, All, IsUtf8};
ghost use Rattle.ofit_study.specs.Name.{IsName, IsNameByte};

use ofit_num::LONGEST_NAME;
use std::alloc::{AllocError, Global};
use std::marker::Model;

/// The name of a group: 1 to 64 bytes of UTF-8, none of them a control byte.
#[derive(Drop)]
pub struct Name {
    text: Vec<u8>,
}

impl Model for Name {
    ghost use Rattle.std.specs.Prelude.{ℕ, List};
    ghost use Rattle.ofit_study.specs.Name.{IsName};

    ghost Value = { List ℕ };

    ghost view = { λ n. n.text.items };

    ghost invariant = { λ n. IsName n.text.items };
}

fn is_name_byte(byte: u8) -> bool
    ensures { IsTrue result ↔ IsNameByte byte }
{
    byte >= 0x20 && byte != 0x7F
}

fn are_name_bytes(bytes: &[u8]) -> bool
    ensures { IsTrue result ↔ All IsNameByte bytes.now }
{
    bytes.iter().all(|byte| is_name_byte(*byte))
}

/// Whether each byte is a printed one of ASCII, as in most names.
fn is_printed(bytes: &[u8]) -> bool
    ensures { IsTrue result ↔ All (λ b. (32 ≤ b) × (b < 127)) bytes.now }
{
    bytes.iter().all(|byte| b' ' <= *byte && *byte < 0x7F)
}

fn is_text(bytes: &[u8]) -> bool
    ensures { IsTrue result ↔ IsUtf8 bytes.now }
{
    str::from_utf8(bytes).is_ok()
}

/// Whether the bytes are UTF-8 without control bytes.
fn is_plain(bytes: &[u8]) -> bool
    ensures { IsTrue result ↔ (All IsNameByte bytes.now × IsUtf8 bytes.now) }
{
    is_printed(bytes) || (are_name_bytes(bytes) && is_text(bytes))
}

/// Whether the bytes are a name: 1 to 64 bytes of UTF-8, none below 0x20 and none 0x7F. Time linear in
/// the name, and no memory.
pub fn is_name(bytes: &[u8]) -> bool
    ensures { IsTrue result ↔ IsName bytes.now }
{
    !bytes.is_empty() && bytes.len() <= LONGEST_NAME && is_plain(bytes)
}

impl Name {
    /// The name of these bytes. None where they aren't a name.
    pub fn make(alloc: Global, bytes: &[u8]) -> Result<Option<Name>, AllocError>
        ensures made { IfOk result (λ made. MatchOption made (IsName bytes.now → ⊥) (λ name. (name ≡ bytes.now) × IsName bytes.now)) }
    {
        if !is_name(bytes) {
            return Ok(None);
        }
        let mut text = Vec::new(alloc);
        text.extend_from_slice(bytes)?;
        Ok(Some(Name { text }))
    }

    /// The bytes of the name.
    pub fn bytes(&self) -> &[u8]
        ensures value { result.now ≡ self.now }
        ensures name { IsName self.now }
    {
        self.text.as_slice()
    }
}
