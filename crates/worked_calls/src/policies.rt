// The calls of `policy_tables`.
use http_message::Kind;
use json_ptr::find;
use n32_values::Node;
use policy_tables::{
    Policy, PolicyMatch, PolicyRead, address_text, is_modifiable, is_secret, is_secret_header,
    is_secret_node, is_secret_pair, is_secret_segment, mapping_of, policy_doc, read_policy,
    same_policy,
};
use std::alloc::Global;
use worked_rows::{Args, Given, member_node, number_node, number_or_null, request_in, text_node};

fn printed(alloc: Global, policy: Policy) -> Option<Node> {
    policy_doc(alloc, &policy).ok()
}

/// The document of the policy that `policy` is read to, or the number of the bad mapping.
pub fn read_policy_call(alloc: Global, args: Args<'_>) -> Option<Node> {
    match read_policy(alloc, args.document("policy")?) {
        Ok(policy) => printed(alloc, policy),
        Err(PolicyRead::Form(number)) => member_node(alloc, "fault", number_node(number)),
        Err(PolicyRead::NoMemory) => None,
    }
}

/// Whether `policy` is read to a policy.
pub fn is_policy_call(given: &Given) -> Option<Node> {
    Some(Node::Truth(given.policy.is_some()))
}

fn compared(alloc: Global, copy: Policy, other: &Policy) -> Option<Node> {
    match same_policy(&copy, other) {
        PolicyMatch::Same => text_node(alloc, "same"),
        PolicyMatch::Mapping(number) => member_node(alloc, "mapping", number_node(number)),
        PolicyMatch::Types => text_node(alloc, "types"),
    }
}

/// How a copy of `policy` and `other` differ.
pub fn same_policy_call(alloc: Global, given: &Given) -> Option<Node> {
    let copy = given.policy.as_ref()?.copy(alloc).ok()?;
    compared(alloc, copy, given.other.as_ref()?)
}

/// The number of the first mapping that fits.
pub fn mapping_of_call(given: &Given) -> Option<Node> {
    let mapping = mapping_of(given.policy.as_ref()?, request_in(given)?);
    Some(number_or_null(mapping))
}

pub fn is_secret_call(args: Args<'_>, given: &Given) -> Option<Node> {
    let secret = is_secret(
        given.policy.as_ref()?,
        args.mapping()?,
        given.message.as_ref()?,
        given.address.as_ref()?,
    );
    Some(Node::Truth(secret))
}

/// Segment `place` of the message's path.
pub fn is_secret_segment_call(args: Args<'_>, given: &Given) -> Option<Node> {
    let place = args.number("place")? as usize;
    let part = request_in(given)?.segments.get(place)?;
    let policy = given.policy.as_ref()?;
    let mapping = args.mapping()?;
    let secret = is_secret_segment(policy, mapping, Kind::Request, place, part);
    Some(Node::Truth(secret))
}

/// Pair `place` of the message's query.
pub fn is_secret_pair_call(args: Args<'_>, given: &Given) -> Option<Node> {
    let pair = request_in(given)?
        .query
        .get(args.number("place")? as usize)?;
    let policy = given.policy.as_ref()?;
    let mapping = args.mapping()?;
    let secret = is_secret_pair(policy, mapping, Kind::Request, pair);
    Some(Node::Truth(secret))
}

/// Header `place` of the request.
pub fn is_secret_header_call(args: Args<'_>, given: &Given) -> Option<Node> {
    let header = request_in(given)?
        .headers
        .get(args.number("place")? as usize)?;
    let policy = given.policy.as_ref()?;
    let mapping = args.mapping()?;
    let secret = is_secret_header(policy, mapping, Kind::Request, header);
    Some(Node::Truth(secret))
}

fn kind_in(args: Args<'_>) -> Option<Kind> {
    match args.text("kind")? {
        "request" => Some(Kind::Request),
        "response" => Some(Kind::Response),
        _ => None,
    }
}

/// The node of `body` at `pointer`.
pub fn is_secret_node_call(args: Args<'_>, given: &Given) -> Option<Node> {
    let body = args.document("body")?;
    let pointer = given.pointer.as_ref()?;
    let secret = is_secret_node(
        given.policy.as_ref()?,
        args.mapping()?,
        kind_in(args)?,
        body,
        pointer,
        find(body, pointer).ok()?,
    );
    Some(Node::Truth(secret))
}

pub fn is_modifiable_call(args: Args<'_>, given: &Given) -> Option<Node> {
    let (Some(policy), Some(before), Some(after), Some(address), Some(ipx)) = (
        &given.policy,
        &given.message,
        &given.after,
        &given.address,
        &given.ipx,
    ) else {
        return None;
    };
    let mapping = args.mapping()?;
    Some(Node::Truth(is_modifiable(policy, mapping, before, after, address, ipx)))
}

pub fn address_text_call(alloc: Global, given: &Given) -> Option<Node> {
    match address_text(alloc, given.address.as_ref()?) {
        Ok(text) => Some(Node::Words(text)),
        Err(_) => None,
    }
}
