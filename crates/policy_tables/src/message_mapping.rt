// The mapping that a message goes by.
ghost use Rattle.std.specs.Prelude.{◌≡◌};
ghost use Rattle.spec_messages.specs.HeadMapping.{mapping_of_head};
ghost use Rattle.http_message.specs.Reading.{message_view};

use crate::mapping::mapping_of;
use http_message::Message;
use policy_documents::Policy;

/// The number of the first mapping of the policy that fits a request, `None` exactly where none fits. No mapping fits a response.
/// It takes no memory.
pub fn mapping_for(policy: &Policy, message: &Message) -> Option<u32>
    ensures { result ≡ mapping_of_head policy.now (message_view message.now).head }
{
    match message {
        Message::Request(request) => mapping_of(policy, request),
        Message::Response(_) => None,
    }
}
