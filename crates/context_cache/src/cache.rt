// What is kept of one context.
ghost use Rattle.std.specs.Prelude.{◌≡◌, ◌≤◌, Some, OnOk, IfOk};
ghost use Rattle.std.specs.Option.{option_or};
ghost use Rattle.context_cache.specs.Known.{nothing_known, noted};
ghost use Rattle.context_cache.specs.Tables.{known_of, room_of};
ghost use Rattle.spec_records.specs.Records.{greater as greater_of};

use crate::fact::Fact;
use id_runs::RunList;
use n32_values::NoMemory;
use std::alloc::Global;

// The numbers of the opened record and of that with the keys, the greatest numbers sent, and the ids.
#[derive(Drop)]
pub(crate) struct Cache {
    pub used: bool,
    pub opened: Option<u32>,
    pub closed: bool,
    pub keyed: Option<u32>,
    pub sent_request: Option<u32>,
    pub sent_response: Option<u32>,
    pub sent_requests: RunList,
    pub sent_responses: RunList,
    pub delivered_requests: RunList,
    pub delivered_responses: RunList,
}

fn new_cache(alloc: Global) -> Cache
    ensures { known_of result ≡ nothing_known }
{
    Cache {
        used: false,
        opened: None,
        closed: false,
        keyed: None,
        sent_request: None,
        sent_response: None,
        sent_requests: RunList::new(alloc),
        sent_responses: RunList::new(alloc),
        delivered_requests: RunList::new(alloc),
        delivered_responses: RunList::new(alloc),
    }
}

fn first(known: Option<u32>, number: u32) -> Option<u32>
    ensures { result ≡ option_or known (Some number) }
{
    match known {
        Some(first) => Some(first),
        None => Some(number),
    }
}

fn greater(known: Option<u32>, number: u32) -> Option<u32>
    ensures { result ≡ greater_of known (Some number) }
{
    match known {
        Some(greatest) => Some(greatest.max(number)),
        None => Some(number),
    }
}

// Makes room for one more id in each list.
pub(crate) fn make_room(cache: &mut Cache) -> Result<(), NoMemory>
    ensures known { known_of cache.new ≡ known_of cache.old }
    ensures room { OnOk result (1 ≤ room_of cache.new) }
{
    cache.sent_requests.reserve()?;
    cache.sent_responses.reserve()?;
    cache.delivered_requests.reserve()?;
    cache.delivered_responses.reserve()?;
    Ok(())
}

pub(crate) fn roomy_cache(alloc: Global) -> Result<Cache, NoMemory>
    ensures known { IfOk result (λ c. known_of c ≡ nothing_known) }
    ensures room { IfOk result (λ c. 1 ≤ room_of c) }
{
    let mut cache = new_cache(alloc);
    match make_room(&mut cache) {
        Ok(()) => Ok(cache),
        Err(refused) => Err(refused),
    }
}

// Keeps what the record of this number tells.
pub(crate) fn note(cache: &mut Cache, number: u32, fact: Fact)
    requires { 1 ≤ room_of cache.old }
    ensures { known_of cache.new ≡ noted number fact (known_of cache.old) }
{
    match fact {
        Fact::Offered => cache.used = true,
        Fact::Opened => {
            cache.used = true;
            cache.opened = first(cache.opened, number);
        }
        Fact::Keyed => cache.keyed = first(cache.keyed, number),
        Fact::SentRequest(seq, message, mapping) => {
            cache.sent_request = greater(cache.sent_request, seq);
            cache.sent_requests.add(message, number, mapping);
        }
        Fact::SentResponse(seq, message, mapping) => {
            cache.sent_response = greater(cache.sent_response, seq);
            cache.sent_responses.add(message, number, mapping);
        }
        Fact::DeliveredRequest(message, mapping) => {
            cache.delivered_requests.add(message, number, mapping);
        }
        Fact::DeliveredResponse(message, mapping) => {
            cache.delivered_responses.add(message, number, mapping);
        }
        Fact::Closed => cache.closed = true,
        Fact::Nothing => {}
    }
}
