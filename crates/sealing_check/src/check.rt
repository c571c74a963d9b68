// The first secret place of a message that stands in clear.
ghost use Rattle.std.specs.Prelude.{◌≡◌, IfOk, map, option_map};
ghost use Rattle.spec_messages.specs.Message.{request as request_head};
ghost use Rattle.spec_exchange.specs.Rebuilding.{in_clear};
ghost use Rattle.n32_values.specs.View.{tree_of};
ghost use Rattle.http_message.specs.Reading.{header_view, message_view, request_line};
ghost use Rattle.policy_tables.specs.View.{address_view};
ghost use Rattle.sealing_check.specs.Rules.{line_found, rest_found, body_found, all_found};

use crate::body::{Body, clear_node};
use crate::parts::{Sealed, clear_header, clear_pair, clear_segment};
use http_message::{HeaderList, Message, Request};
use json_ptr::Pointer;
use n32_values::{Doc, NoMemory, Node};
use policy_tables::{Address, Policy, Rules};
use std::alloc::Global;

fn node_of(body: &Option<Doc>) -> Option<&Node>
    ensures { option_map (λ n. tree_of n.now) result ≡ body.now }
{
    match body {
        Some(doc) => Some(doc.node()),
        None => None,
    }
}

fn body_of(message: &Message) -> Option<&Node>
    ensures { option_map (λ n. tree_of n.now) result ≡ (message_view message.now).body }
{
    node_of(message.body())
}

fn clear_in_line(
    alloc: Global,
    sealed: &Sealed<'_>,
    request: &Request,
) -> Result<Option<Address>, NoMemory>
    ensures { IfOk result (λ a. option_map address_view a ≡ line_found sealed.now (request_head (request_line request.now))) }
{
    match clear_segment(alloc, sealed, &request.segments)? {
        Some(address) => Ok(Some(address)),
        None => clear_pair(alloc, sealed, &request.query),
    }
}

fn clear_in_body(
    alloc: Global,
    sealed: &Sealed<'_>,
    body: &Option<Doc>,
) -> Result<Option<Address>, NoMemory>
    ensures { IfOk result (λ a. option_map address_view a ≡ body_found sealed.now body.now) }
{
    let Some(root) = node_of(body) else {
        return Ok(None);
    };
    let body = Body {
        rules: sealed.rules,
        root,
    };
    let covering = sealed.rules.covering();
    let holed = body_of(sealed.holed);
    let mut pointer = Pointer::new(alloc);
    match clear_node(alloc, &body, covering, holed, root, &mut pointer)? {
        Some(place) => Ok(Some(Address::Body(place))),
        None => Ok(None),
    }
}

fn clear_in_rest(
    alloc: Global,
    sealed: &Sealed<'_>,
    headers: &HeaderList,
    body: &Option<Doc>,
) -> Result<Option<Address>, NoMemory>
    ensures { IfOk result (λ a. option_map address_view a ≡ rest_found sealed.now (map header_view headers.now) body.now) }
{
    match clear_header(alloc, sealed, headers)? {
        Some(address) => Ok(Some(address)),
        None => clear_in_body(alloc, sealed, body),
    }
}

fn clear_in_message(
    alloc: Global,
    sealed: &Sealed<'_>,
    filled: &Message,
) -> Result<Option<Address>, NoMemory>
    ensures { IfOk result (λ a. option_map address_view a ≡ all_found sealed.now (message_view filled.now)) }
{
    match filled {
        Message::Request(request) => match clear_in_line(alloc, sealed, request)? {
            Some(address) => Ok(Some(address)),
            None => clear_in_rest(alloc, sealed, &request.headers, &request.body),
        },
        Message::Response(response) => {
            clear_in_rest(alloc, sealed, &response.headers, &response.body)
        }
    }
}

/// The address of the first secret place of a filled message that its sender left in clear: one that
/// stands neither at nor beneath a hole of the message with holes. Secret places are the outermost ones
/// under the mapping of that number, in the order segments, pairs of the query, headers, nodes of the
/// body.
///
/// Both messages are walked side by side, once. It takes memory for the way to the node that is walked
/// and for the address.
pub fn first_in_clear(
    alloc: Global,
    policy: &Policy,
    mapping: Option<u32>,
    holed: &Message,
    filled: &Message,
) -> Result<Option<Address>, NoMemory>
    ensures { IfOk result (λ a. option_map address_view a ≡ in_clear policy.now mapping (message_view holed.now) (message_view filled.now)) }
{
    let rules = Rules::new(alloc, policy, mapping, filled.kind())?;
    let sealed = Sealed {
        rules: &rules,
        holed,
    };
    let address = clear_in_message(alloc, &sealed, filled)?;
    Ok(address)
}
