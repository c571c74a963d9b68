// The message of an opened document.
ghost use Rattle.std.specs.Prelude.{◌≡◌, ◌≤◌, None, Some, IfOk, MatchResult, length};
ghost use Rattle.spec_documents.specs.Gives.{Gives};
ghost use Rattle.spec_messages.specs.Block.{IsBlock, clear_message};
ghost use Rattle.spec_messages.specs.Message.{wanted};
ghost use Rattle.spec_messages.specs.Fault.{block_fault as fault_of};
ghost use Rattle.spec_messages.specs.Split.{filled};
ghost use Rattle.spec_messages.specs.Steps.{InOrder};
ghost use Rattle.http_message.specs.Reading.{message_view};
ghost use Rattle.block_forms.specs.Faults.{Refuses};
ghost use Rattle.spec_exchange.specs.Accepting.{stage};
ghost use Rattle.spec_exchange.specs.Chain.{or_refused};
ghost use Rattle.spec_exchange.specs.Stages.{is_sealed};
ghost use Rattle.spec_exchange.specs.Rebuilding as spec;
ghost use Rattle.spec_exchange.specs.ReceivingRefusals as refusals;
ghost use Rattle.spec_sealing.specs.Plaintext.{values_of};
ghost use Rattle.receiving_sepp.specs.Refilling.{Stands};
ghost use Rattle.receiving_sepp.specs.Refusing.{told};
ghost use Rattle.receiving_sepp.specs.Groups.{rebuilt_block, revealed};
ghost use Rattle.receiving_sepp.specs.Views.{mapped_view, messages_view, rebuilt_view, revealed_view};

use crate::faults::CheckFault;
use crate::mapping::{MappedBy, mapping_by};
use crate::refused::{RebuildWhy, Refused};
use block_forms::{Block, BlockRead, BlockReading, OpenBlock, values_are_few};
use http_message::Message;
use message_rebuilding::{RebuildFault, fill_message};
use n32_values::{Doc, NoMemory, NodeList};
use policy_tables::Policy;
use prins_document::{ValuesRead, read_values};
use sealing_check::first_in_clear;
use spec_messages::blocks::block_has_one_message;
use spec_messages::rebuilt::fill_fault_decides;
use std::alloc::Global;

// A block and its values, the message with holes that it stands for, and the one with all its values.
#[derive(Drop)]
pub(crate) struct Rebuilt {
    pub(crate) block: Block,
    pub(crate) values: NodeList,
    pub(crate) holed: Message,
    pub(crate) content: Message,
}

// A message before any entry, and the mapping that it goes by.
#[derive(Drop)]
pub(crate) struct Revealed {
    pub(crate) rebuilt: Rebuilt,
    pub(crate) mapping: Option<u32>,
}

// A block, and the message with holes that it stands for.
#[derive(Drop)]
struct Holed {
    block: Block,
    message: Message,
}

// The values of a plaintext.
fn values_of(alloc: Global, plain: &[u8]) -> Result<NodeList, CheckFault>
    ensures values { Gives told (λ vs. vs) result (stage (wanted (values_of plain.now) (refusals.Reconstruction spec.no_values))) }
    ensures ordered { IfOk result (λ vs. InOrder vs) }
{
    match read_values(alloc, plain) {
        Ok(values) => Ok(values),
        Err(ValuesRead::NoList) => Err(CheckFault::Refused(Refused::Reconstruction(
            RebuildWhy::Values,
        ))),
        Err(ValuesRead::NoMemory) => Err(CheckFault::NoMemory),
    }
}

// Reads the block that a document is with so many values. More values than 1,024 are too many, however
// many they are.
#[tactic(auto, using(crate::proofs::Counts::same_fault))]
fn read_with(alloc: Global, block: Doc, count: usize) -> Result<BlockReading, BlockRead>
    ensures { MatchResult result
        (λ r. (r.0 ≡ block) × (fault_of block count ≡ None))
        (λ why. Refuses why (fault_of block count)) }
{
    if 1024 < count {
        return BlockReading::read(alloc, block, 1025);
    }
    BlockReading::read(alloc, block, count as u32)
}

fn count_of(values: &NodeList) -> u32
    requires { length values.now ≤ 1024 }
    ensures { result ≡ length values.now }
{
    values.len() as u32
}

// The block that was read, and its message.
fn holed_of(alloc: Global, reading: BlockReading, _count: u32) -> Result<Holed, NoMemory>
    requires { fault_of reading.0 _count ≡ None }
    ensures block { IfOk result (λ h. h.block ≡ reading.0) }
    ensures message { IfOk result (λ h. clear_message reading.0 ≡ Some (message_view h.message)) }
    ensures stands { IfOk result (λ h. IsBlock reading.0 _count (message_view h.message)) }
{
    block_has_one_message();
    let _known = reading.doc().node();
    match reading.into_all(alloc) {
        Ok(all) => {
            let OpenBlock { block, message, .. } = all;
            Ok(Holed { block, message })
        }
        Err(refused) => Err(refused),
    }
}

// The block that a document is with the values, and the message with holes that it stands for.
fn holed_block(alloc: Global, block: Doc, values: &NodeList) -> Result<Holed, CheckFault>
    ensures message { Gives told (λ h. message_view h.message) result (stage (or_refused (λ why. refusals.Reconstruction (spec.no_block why)) (spec.read_block block (length values.now)))) }
    ensures block { IfOk result (λ h. h.block ≡ block) }
    ensures stands { IfOk result (λ h. IsBlock block (length values.now) (message_view h.message)) }
    ensures few { IfOk result (λ _. length values.now ≤ 1024) }
{
    values_are_few();
    let reading = match read_with(alloc, block, values.len()) {
        Ok(reading) => reading,
        Err(BlockRead::Refused(why)) => {
            return Err(CheckFault::Refused(Refused::Reconstruction(RebuildWhy::Block(why))));
        }
        Err(BlockRead::NoMemory) => return Err(CheckFault::NoMemory),
    };
    match holed_of(alloc, reading, count_of(values)) {
        Ok(holed) => Ok(holed),
        Err(_) => Err(CheckFault::NoMemory),
    }
}

// The message with its holes filled.
fn filled_message(alloc: Global, values: &NodeList, holed: &Message) -> Result<Message, CheckFault>
    requires { length values.now ≤ 1024 }
    ensures message { Gives told message_view result (stage (or_refused (λ why. refusals.Reconstruction (spec.no_fill why)) (spec.filled_with values.now (message_view holed.now)))) }
    ensures filled { IfOk result (λ m. filled values.now (message_view holed.now) ≡ Some (message_view m)) }
{
    fill_fault_decides();
    match fill_message(alloc, holed, values) {
        Ok(message) => Ok(message),
        Err(RebuildFault::NotText(n)) => {
            Err(CheckFault::Refused(Refused::Reconstruction(RebuildWhy::NotText(n))))
        }
        Err(RebuildFault::Depth) => {
            Err(CheckFault::Refused(Refused::Reconstruction(RebuildWhy::Depth)))
        }
        Err(RebuildFault::NoMemory) => Err(CheckFault::NoMemory),
    }
}

// The block of a document with the values of a plaintext, and its message.
#[tactic(auto, unfolding(spec_documents::specs::Chain::chains))]
fn rebuild_block(alloc: Global, block: Doc, plain: &[u8]) -> Result<Rebuilt, CheckFault>
    ensures rebuilt { Gives told rebuilt_view result (rebuilt_block block plain.now) }
    ensures stands { IfOk result (λ r. Stands (rebuilt_view r)) }
{
    let values = values_of(alloc, plain)?;
    let holed = holed_block(alloc, block, &values)?;
    let content = filled_message(alloc, &values, &holed.message)?;
    Ok(Rebuilt {
        block: holed.block,
        values,
        holed: holed.message,
        content,
    })
}

// Refuses a message that has in clear what the policy makes secret.
fn check_sealed(
    alloc: Global,
    policy: &Policy,
    mapping: Option<u32>,
    rebuilt: &Rebuilt,
) -> Result<(), CheckFault>
    ensures { Gives told (λ u. u) result (stage (is_sealed policy.now mapping (messages_view rebuilt.now))) }
{
    match first_in_clear(alloc, policy, mapping, &rebuilt.holed, &rebuilt.content)? {
        Some(address) => Err(CheckFault::Refused(Refused::Policy(address))),
        None => Ok(()),
    }
}

/// The block of a document with the values of a plaintext, and its message, which has in clear nothing that
/// the policy makes secret.
#[tactic(auto, unfolding(spec_documents::specs::Chain::chains))]
pub(crate) fn reveal(
    alloc: Global,
    policy: &Policy,
    by: MappedBy,
    block: Doc,
    plain: &[u8],
) -> Result<Revealed, CheckFault>
    ensures revealed { Gives told revealed_view result (revealed policy.now (mapped_view by) block plain.now) }
    ensures stands { IfOk result (λ r. Stands (rebuilt_view r.rebuilt)) }
{
    let rebuilt = rebuild_block(alloc, block, plain)?;
    let mapping = mapping_by(by, policy, &rebuilt.content);
    check_sealed(alloc, policy, mapping, &rebuilt)?;
    Ok(Revealed { rebuilt, mapping })
}
