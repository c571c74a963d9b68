// A change of a message, and the question that is asked of each address that it touches.
ghost use Rattle.std.specs.Prelude.{◌≡◌, map, [], ◌∷◌, find, option_map};
ghost use Rattle.spec_messages.specs.Policy.{patterns_of, mapping_at};
ghost use Rattle.policy_documents.specs.View.{pattern_view};
ghost use Rattle.policy_tables.specs.View.{address_view};
ghost use Rattle.message_differences.specs.Fixed.{fixed_by};

use http_message::Message;
use n32_values::Text;
use policy_tables::{Address, Pattern, Policy, is_modifiable};

/// A change of one message into another by an intermediary, under a mapping of a policy.
#[derive(Clone, Copy)]
pub(crate) struct Change<'a> {
    pub(crate) policy: &'a Policy,
    pub(crate) mapping: Option<u32>,
    pub(crate) before: &'a Message,
    pub(crate) after: &'a Message,
    pub(crate) ipx: &'a Text,
}

impl Change<'_> {
    fn is_fixed(&self, address: &Address) -> bool
        ensures { result ≡ fixed_by self.now (address_view address.now) }
    {
        let Change {
            policy,
            mapping,
            before,
            after,
            ipx,
        } = *self;
        !is_modifiable(policy, mapping, before, after, address, ipx)
    }

    /// The address, where it isn't modifiable.
    pub(crate) fn if_fixed(&self, address: Address) -> Option<Address>
        ensures { option_map address_view result ≡ find (fixed_by self.now) (address_view address ∷ []) }
    {
        if self.is_fixed(&address) {
            Some(address)
        } else {
            None
        }
    }

    /// The path template of the mapping; without a mapping it is empty.
    pub(crate) fn patterns(&self) -> &[Pattern]
        ensures { map pattern_view result.now ≡ patterns_of (mapping_at self.now.policy.now self.now.mapping) }
    {
        let Some(k) = self.mapping else {
            return &[];
        };
        match self.policy.segments_of(k) {
            Some(patterns) => patterns.as_slice(),
            None => &[],
        }
    }
}
