// The records of a keeper are read.
ghost use Rattle.std.specs.Prelude.{◌≡◌, ◌<◌, ◌≤◌, [], ◌∷◌, ◌++◌, map, length, IfOk, OnOk, IfErr, IsErrOf, IsTrue};
ghost use Rattle.n32_outside.specs.Causes.{Rose};
ghost use Rattle.n32_outside.specs.Contents.{Stays};
ghost use Rattle.spec_records.specs.Records.{record_limit};
ghost use Rattle.spec_records.specs.RecordDocument.{is_well_named};
ghost use Rattle.context_records.specs.View.{record_view};
ghost use Rattle.context_records.specs.Reading.{ReadsRecord};
ghost use Rattle.context_cache.specs.Mirror.{IsMirror};
ghost use Rattle.context_store.specs.Stores.{AreNamed, Holds, NamesBad, RefusesText};

use crate::faults::OpenFault;
use crate::noting::{make_room, push_record};
use crate::store::RECORD_LIMIT;
use context_cache::Caches;
use context_records::{Record, RecordRead, read_record_in};
use n32_outside::{Keeper, OutFault};
use n32_values::ReadingRoom;
use std::alloc::Global;

// The record of the held text of this number.
fn read_text(
    alloc: Global,
    number: u64,
    text: &[u8],
    room: &mut ReadingRoom,
) -> Result<Record, OpenFault>
    ensures ok { IfOk result (λ r. ReadsRecord text.now (record_view r)) }
    ensures named { IfOk result (λ r. IsTrue (is_well_named (record_view r))) }
    ensures room { OnOk result (number < record_limit) }
    ensures refused { IfErr result (RefusesText number text.now) }
{
    if number >= RECORD_LIMIT as u64 {
        return Err(OpenFault::Journal(number));
    }
    match read_record_in(alloc, text, room) {
        Ok(record) => Ok(record),
        Err(RecordRead::Form) => Err(OpenFault::Journal(number)),
        Err(RecordRead::NoMemory) => Err(OpenFault::NoMemory),
    }
}

fn push(
    alloc: Global,
    records: &mut Vec<Record>,
    caches: &mut Caches,
    item: Record,
) -> Result<(), OpenFault>
    requires mirror { IsMirror caches.old (map record_view records.old.items) }
    requires few { length records.old.items < record_limit }
    ensures ok { OnOk result (records.new.items ≡ records.old.items ++ item ∷ []) }
    ensures mirror { OnOk result (IsMirror caches.new (map record_view records.new.items)) }
    ensures err { IfErr result (λ e. e ≡ OpenFault.NoMemory) }
{
    match make_room(alloc, records, caches, &item) {
        Ok(()) => {
            push_record(records, caches, item);
            Ok(())
        }
        Err(_) => Err(OpenFault::NoMemory),
    }
}

// All records that are held, in order, and what they tell.
pub(crate) fn read_records<K: Keeper>(
    alloc: Global,
    keeper: &mut K,
) -> Result<(Vec<Record>, Caches), OpenFault>
    ensures ok { IfOk result (λ read. Holds (K.held keeper.old) (map record_view read.0.items)) }
    ensures few { IfOk result (λ read. length read.0.items ≤ record_limit) }
    ensures named { IfOk result (λ read. AreNamed (map record_view read.0.items)) }
    ensures mirror { IfOk result (λ read. IsMirror read.1 (map record_view read.0.items)) }
    ensures same { Stays (K.held keeper.old) (K.held keeper.new) }
    ensures journal { IfErr result (NamesBad (K.held keeper.old)) }
    ensures later { K.faults keeper.old ≤ K.faults keeper.new }
    ensures failed { IsErrOf result OpenFault.Keeper → Rose (K.faults keeper.old) (K.faults keeper.new) }
{
    let mut records = Vec::new(alloc);
    let mut caches = Caches::new(alloc);
    let mut room = ReadingRoom::new(alloc);
    let mut number = 0u64;
    loop {
        match keeper.load(alloc, number) {
            Ok(None) => return Ok((records, caches)),
            Err(OutFault::Failed) => return Err(OpenFault::Keeper),
            Err(OutFault::NoMemory) => return Err(OpenFault::NoMemory),
            Ok(Some(text)) => {
                let record = read_text(alloc, number, text.as_slice(), &mut room)?;
                push(alloc, &mut records, &mut caches, record)?;
            }
        }
        number += 1;
    }
}
