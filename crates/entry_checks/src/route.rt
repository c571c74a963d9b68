// The intermediaries on the way of a document.
ghost use Rattle.std.specs.Prelude.{◌≡◌, ◌≤◌, ◌<◌, length, drop, option_map, bytes_eq};
ghost use Rattle.std.specs.List.{list_any};
ghost use Rattle.spec_exchange.specs.Route as spec;
ghost use Rattle.entry_checks.specs.Views.{route_view};
ghost use Rattle.entry_checks.specs.Steps.{behind};

use n32_values::{Text, TextList};

/// The intermediaries that a document may pass, in order: the authorized one, where it is on the way, and then
/// the own ones.
#[derive(Clone, Copy)]
pub struct Route<'a> {
    /// The identity of the authorized intermediary.
    pub authorized: Option<&'a Text>,
    /// The identities of the own intermediaries.
    pub own: &'a [Text],
}

fn is_same(one: &Text, other: &Text) -> bool
    ensures { result ≡ bytes_eq one.now other.now }
{
    one.as_str() == other.as_str()
}

fn is_among(identity: &Text, texts: &TextList) -> bool
    ensures { result ≡ list_any (bytes_eq identity.now) texts.now }
{
    let mut items = texts.as_slice().iter();
    items.any(|text| is_same(identity, text))
}

/// The route of a document: the identity that the document authorizes, where the peer has announced it as one
/// of its intermediaries, and then the own intermediaries of the context. It takes no memory.
pub fn route_for<'a>(authorized: &'a Text, peer_ipx: &TextList, own_ipx: &'a TextList) -> Route<'a>
    ensures { route_view result ≡ spec.route authorized.now peer_ipx.now own_ipx.now }
{
    Route {
        authorized: is_among(authorized, peer_ipx).then_some(authorized),
        own: own_ipx.as_slice(),
    }
}

// What stands behind the first place of the identity.
#[tactic(auto, using(crate::proofs::Routes::found_here, crate::proofs::Routes::found_later, crate::proofs::Routes::found_nowhere))]
fn behind_in<'a>(identity: &Text, texts: &'a [Text]) -> Option<&'a [Text]>
    ensures { option_map (λ l. l.now) result ≡ behind identity.now texts.now }
{
    for i in 0..texts.len() {
        if is_same(identity, &texts[i]) {
            return Some(&texts[i + 1..]);
        }
    }
    None
}

impl<'a> Route<'a> {
    // The route behind the first place of the identity.
    pub(crate) fn behind(self, identity: &Text) -> Option<Route<'a>>
        ensures { option_map route_view result ≡ behind identity.now (route_view self.entry) }
    {
        if let Some(authorized) = self.authorized {
            if is_same(identity, authorized) {
                return Some(Route {
                    authorized: None,
                    own: self.own,
                });
            }
        }
        match behind_in(identity, self.own) {
            Some(own) => Some(Route {
                authorized: None,
                own,
            }),
            None => None,
        }
    }
}
