ghost use Rattle.std.specs.Prelude.{◌≡◌, IfOk, IsTrue, length};
ghost use Rattle.std.specs.List.{list_all};
ghost use Rattle.std.specs.Char.{is_ascii_digit};
ghost use Rattle.spec_documents.specs.Ids.{is_plmn, plmn_of};

use crate::memory::NoMemory;
use crate::text::Text;
use std::alloc::Global;
use std::marker::Model;

/// The id of an operator's network (a PLMN): 5 or 6 decimal digits.
#[derive(Drop)]
pub struct PlmnId {
    digits: Text,
}

impl Model for PlmnId {
    ghost use Rattle.std.specs.Prelude.{List, ℕ, IsTrue};
    ghost use Rattle.spec_documents.specs.Ids.{is_plmn};

    ghost Value = { List ℕ };

    ghost view = { λ p. p.digits };

    ghost invariant = { λ p. IsTrue (is_plmn p.digits) };
}

impl PlmnId {
    /// The digits.
    pub fn as_str(&self) -> &str
        ensures value { result.now ≡ self.now }
        ensures digits { IsTrue (is_plmn result.now) }
    {
        self.digits.as_str()
    }

    /// An equal id.
    pub fn copy(&self, alloc: Global) -> Result<PlmnId, NoMemory>
        ensures { IfOk result (λ p. p ≡ self.now) }
    {
        Ok(PlmnId {
            digits: self.digits.copy(alloc)?,
        })
    }
}

/// The id that a text of 5 or 6 decimal digits is. It is `Ok(None)` exactly for every other text.
pub fn read_plmn(alloc: Global, text: &str) -> Result<Option<PlmnId>, NoMemory>
    ensures { IfOk result (λ p. p ≡ plmn_of text.now) }
{
    if !is_plmn_text(text) {
        return Ok(None);
    }
    Ok(Some(PlmnId {
        digits: Text::from_text(alloc, text)?,
    }))
}

fn is_plmn_text(text: &str) -> bool
    ensures { result ≡ is_plmn text.now }
{
    let count = text.len();
    5 <= count && count <= 6 && are_digits(text.as_bytes())
}

fn are_digits(bytes: &[u8]) -> bool
    ensures { result ≡ list_all is_ascii_digit bytes.now }
{
    bytes.iter().all(|byte| byte.is_ascii_digit())
}
