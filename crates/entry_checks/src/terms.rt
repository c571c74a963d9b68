// What the entries of a document go by.
use crate::route::Route;
use n32_values::Text;
use policy_tables::Policy;

/// What all entries of a document go by.
#[derive(Clone, Copy)]
pub struct EntryTerms<'a> {
    /// The policy of the document's context.
    pub policy: &'a Policy,
    /// The number of the policy's mapping by which the message goes, where it goes by one.
    pub mapping: Option<u32>,
    /// The base64url text of the tag of the document's JWE (RFC 7516, section 7.2).
    pub tag: &'a Text,
    /// The intermediaries that the document may pass.
    pub route: Route<'a>,
}
