ghost use Rattle.std.specs.Prelude.{◌≡◌, map, option_map};
ghost use Rattle.spec_handshake.specs.Documents as documents;
ghost use Rattle.spec_handshake.specs.Calls as calls;
ghost use Rattle.n32c_handshake.specs.View.{capability_view};

use n32_values::List;

/// How messages over N32-f are protected (the security capabilities of TS 29.573 clause 5.2.2).
#[derive(Clone, Copy, Debug, PartialEq, Eq, Drop)]
pub enum Capability {
    /// PRINS: messages are sealed, and intermediaries may patch them.
    Prins,
    /// TLS alone.
    Tls,
}

/// Capabilities, in the order of a document or of an offer.
pub type CapabilityList = List<Capability>;

impl Capability {
    /// The word that it is written as.
    pub fn name(self) -> &'static str
        ensures { result.now ≡ documents.capability_text (capability_view self) }
    {
        match self {
            Capability::Prins => "PRINS",
            Capability::Tls => "TLS",
        }
    }

    fn is_same(self, other: Capability) -> bool
        ensures { result ≡ calls.same_capability (capability_view self) (capability_view other) }
    {
        match self {
            Capability::Prins => matches!(other, Capability::Prins),
            Capability::Tls => matches!(other, Capability::Tls),
        }
    }
}

pub(crate) fn capability_of(word: &str) -> Option<Capability>
    ensures { option_map capability_view result ≡ documents.capability_of word.now }
{
    if word == "PRINS" {
        Some(Capability::Prins)
    } else if word == "TLS" {
        Some(Capability::Tls)
    } else {
        None
    }
}

pub(crate) fn has_capability(list: &CapabilityList, capability: Capability) -> bool
    ensures { result ≡ calls.has_capability (map capability_view list.now) (capability_view capability) }
{
    for i in 0..list.len() {
        if capability.is_same(*list.item(i)) {
            return true;
        }
    }
    false
}

/// PRINS where both lists have it, else TLS where both do.
pub(crate) fn chosen(theirs: &CapabilityList, ours: &CapabilityList) -> Option<Capability>
    ensures { option_map capability_view result ≡ calls.chosen (map capability_view theirs.now) (map capability_view ours.now) }
{
    if has_capability(theirs, Capability::Prins) && has_capability(ours, Capability::Prins) {
        return Some(Capability::Prins);
    }
    if has_capability(theirs, Capability::Tls) && has_capability(ours, Capability::Tls) {
        return Some(Capability::Tls);
    }
    None
}
