// What one record says.
ghost use Rattle.std.specs.Prelude.{◌≡◌, option_map};
ghost use Rattle.spec_records.specs.Records as spec;
ghost use Rattle.context_cache.specs.Mirror.{fact_of, fits_opening, keyed_set as keyed_set_of};
ghost use Rattle.context_records.specs.View.{context_view, key_set_view, record_view};

use context_cache::Fact;
use context_records::{Context, KeySet, Record};
use http_message::Kind;
use n32_values::{Hex64, Text};

// The node and the id that a record names.
pub(crate) fn name_of(item: &Record) -> (&Text, Hex64)
    ensures node { result.0.now ≡ spec.node_of (record_view item.now) }
    ensures id { result.1.value ≡ spec.context_of (record_view item.now) }
{
    match item {
        Record::Offered { node, id } => (node, *id),
        Record::Opened(context) => (&context.node, context.id),
        Record::Keyed { node, id, .. } => (node, *id),
        Record::Sent { node, id, .. } => (node, *id),
        Record::Delivered { node, id, .. } => (node, *id),
        Record::Closed { node, id } => (node, *id),
    }
}

pub(crate) fn opened_context(item: &Record) -> Option<&Context>
    ensures { option_map (λ x. context_view x.now) result ≡ spec.opened_context (record_view item.now) }
{
    match item {
        Record::Opened(context) => Some(context),
        _ => None,
    }
}

pub(crate) fn keyed_set(item: &Record) -> Option<&KeySet>
    ensures { option_map (λ k. key_set_view k.now) result ≡ keyed_set_of (record_view item.now) }
{
    match item {
        Record::Keyed { keys, .. } => Some(keys),
        _ => None,
    }
}

fn fits(opening: Option<&Context>, keys: &KeySet) -> bool
    ensures { result ≡ fits_opening (option_map (λ x. context_view x.now) opening.entry) (key_set_view keys.now) }
{
    match opening {
        Some(context) => keys.fits(context.suite),
        None => false,
    }
}

// What a record tells of its context, which was opened so before.
pub(crate) fn fact(opening: Option<&Context>, item: &Record) -> Fact
    ensures { result ≡ fact_of (option_map (λ x. context_view x.now) opening.entry) (record_view item.now) }
{
    match item {
        Record::Offered { .. } => Fact::Offered,
        Record::Opened(_) => Fact::Opened,
        Record::Keyed { keys, .. } => {
            if fits(opening, keys) {
                Fact::Keyed
            } else {
                Fact::Nothing
            }
        }
        Record::Sent {
            kind,
            seq,
            message,
            mapping,
            ..
        } => match kind {
            Kind::Request => Fact::SentRequest(*seq, message.value, *mapping),
            Kind::Response => Fact::SentResponse(*seq, message.value, *mapping),
        },
        Record::Delivered {
            kind,
            message,
            mapping,
            ..
        } => match kind {
            Kind::Request => Fact::DeliveredRequest(message.value, *mapping),
            Kind::Response => Fact::DeliveredResponse(message.value, *mapping),
        },
        Record::Closed { .. } => Fact::Closed,
    }
}
