// What an intermediary may modify.
ghost use Rattle.std.specs.Prelude.{◌≡◌, ◌&&◌, ◌||◌, not, option_map, unwrap_or};
ghost use Rattle.spec_messages.specs.Policy as spec;
ghost use Rattle.http_message.specs.Reading.{message_view, kind_view};
ghost use Rattle.policy_documents.specs.View.{element_view};
ghost use Rattle.policy_tables.specs.View.{address_view};

use crate::address::Address;
use crate::covering::deciding;
use crate::mapping::mapping_at;
use crate::secret::is_secret;
use http_message::{Kind, Message};
use n32_values::Text;
use policy_documents::{Element, Grants, Policy};

fn is_line(address: &Address) -> bool
    ensures { result ≡ spec.is_line (address_view address.now) }
{
    match address {
        Address::Line(_) => true,
        Address::PathVar(_) => false,
        Address::Query(_) => false,
        Address::Header(_) => false,
        Address::Body(_) => false,
    }
}

fn answer_in(grants: &Option<Grants>, ipx: &Text) -> Option<bool>
    ensures { result ≡ spec.answer_in ipx.now grants.now }
{
    match grants {
        Some(grants) => grants.answer(ipx.as_str()),
        None => None,
    }
}

// By the intermediary's entry, and where it has none by what is said of all. Absence means no.
fn says_yes(element: Option<&Element>, ipx: &Text) -> bool
    ensures { result ≡ spec.says_yes ipx.now (option_map (λ e. element_view e.now) element.entry) }
{
    match element {
        None => false,
        Some(element) => match answer_in(&element.by_ipx, ipx) {
            Some(answer) => answer,
            None => element.modifiable.unwrap_or(false),
        },
    }
}

// What the deciding element of an address says.
fn is_permitted(
    policy: &Policy,
    mapping: Option<u32>,
    kind: Kind,
    address: &Address,
    ipx: &Text,
) -> bool
    ensures { result ≡ spec.says_yes ipx.now (spec.deciding (kind_view kind) (spec.elements_of (spec.mapping_at policy.now mapping)) (address_view address.now)) }
{
    match mapping_at(policy, mapping) {
        Some(mapping) => says_yes(deciding(&mapping.elements, kind, address.site()), ipx),
        None => false,
    }
}

fn is_secret_in_either(
    policy: &Policy,
    mapping: Option<u32>,
    before: &Message,
    after: &Message,
    address: &Address,
) -> bool
    ensures { result ≡ (spec.is_secret policy.now mapping (message_view before.now) (address_view address.now) || spec.is_secret policy.now mapping (message_view after.now) (address_view address.now)) }
{
    is_secret(policy, mapping, before, address) || is_secret(policy, mapping, after, address)
}

fn is_open(
    policy: &Policy,
    mapping: Option<u32>,
    before: &Message,
    after: &Message,
    address: &Address,
) -> bool
    ensures { result ≡ (not (spec.is_line (address_view address.now)) && not (spec.is_secret policy.now mapping (message_view before.now) (address_view address.now) || spec.is_secret policy.now mapping (message_view after.now) (address_view address.now))) }
{
    !is_line(address) && !is_secret_in_either(policy, mapping, before, after, address)
}

/// Whether an intermediary may modify an address between two messages: the address is no part of the
/// line, it is secret in neither message, and the deciding element says yes for the intermediary, by
/// its entry in `isModifiableByIpx`, else by `isModifiable`; absence means no. It takes no memory. The
/// deciding element is asked first, in one pass over the mapping's elements.
pub fn is_modifiable(
    policy: &Policy,
    mapping: Option<u32>,
    before: &Message,
    after: &Message,
    address: &Address,
    ipx: &Text,
) -> bool
    ensures { result ≡ spec.is_modifiable policy.now mapping (message_view before.now) (message_view after.now) (address_view address.now) ipx.now }
{
    if !is_permitted(policy, mapping, before.kind(), address, ipx) {
        return false;
    }
    is_open(policy, mapping, before, after, address)
}
