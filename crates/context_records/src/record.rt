// Records.
ghost use Rattle.std.specs.Prelude.{◌≡◌, IfOk};
ghost use Rattle.spec_records.specs.Records as spec;
ghost use Rattle.context_records.specs.View.{context_view, key_set_view, record_view};

use crate::context::{Context, KeySet};
use http_message::Kind;
use n32_values::{Hex64, NoMemory, Text};
use std::alloc::Global;

/// What is recorded of a context, which `node` and `id` name. Contexts and keys stand in boxes, since most records
/// have neither.
#[derive(Drop)]
pub enum Record {
    /// The id was offered in a handshake.
    Offered {
        /// The name of the node.
        node: Text,
        /// The context's id at the node.
        id: Hex64,
    },
    /// The context was opened.
    Opened(Box<Context>),
    /// Its keys were handed in.
    Keyed {
        /// The name of the node.
        node: Text,
        /// The context's id at the node.
        id: Hex64,
        /// The keys.
        keys: Box<KeySet>,
    },
    /// A message was sent.
    Sent {
        /// Whether it is a request or a response.
        kind: Kind,
        /// Its sequence number among those of its kind.
        seq: u32,
        /// The name of the node.
        node: Text,
        /// The context's id at the node.
        id: Hex64,
        /// Its message id. A response has that of the request that it answers.
        message: Hex64,
        /// The number of the policy's mapping that it went by, if any fits.
        mapping: Option<u32>,
    },
    /// A message was delivered.
    Delivered {
        /// Whether it is a request or a response.
        kind: Kind,
        /// The name of the node.
        node: Text,
        /// The context's id at the node.
        id: Hex64,
        /// Its message id.
        message: Hex64,
        /// The number of the policy's mapping that it went by, if any fits.
        mapping: Option<u32>,
    },
    /// The context was closed.
    Closed {
        /// The name of the node.
        node: Text,
        /// The context's id at the node.
        id: Hex64,
    },
}

// Where memory is refused the value is let go.
fn boxed<T: Drop>(alloc: Global, value: T) -> Result<Box<T>, NoMemory>
    ensures { IfOk result (λ b. b.value ≡ value) }
{
    match Box::new(alloc, value) {
        Ok(value) => Ok(value),
        Err(_) => Err(NoMemory),
    }
}

impl Record {
    /// The record of a context that was opened.
    pub fn of_context(alloc: Global, context: Context) -> Result<Record, NoMemory>
        ensures { IfOk result (λ r. record_view r ≡ spec.Opened (context_view context)) }
    {
        Ok(Record::Opened(boxed(alloc, context)?))
    }

    /// The record of a context's keys.
    pub fn of_keys(alloc: Global, node: Text, id: Hex64, keys: KeySet) -> Result<Record, NoMemory>
        ensures { IfOk result (λ r. record_view r ≡ spec.Keyed node id.value (key_set_view keys)) }
    {
        let keys = boxed(alloc, keys)?;
        Ok(Record::Keyed { node, id, keys })
    }
}
