// Members put into an object, and numbers in decimal digits.
ghost use Rattle.std.specs.Prelude.{◌≡◌, OnOk, OnErr, IfOk, string_bytes};
ghost use Rattle.spec_documents.specs.Text.{index_text};
ghost use Rattle.spec_documents.specs.Tree.{put_member, words};
ghost use Rattle.n32_values.specs.View.{tree_of};

use n32_values::{NoMemory, Node, NodeMap, Text};
use std::alloc::Global;

/// Puts a node at a name, in place of what is there.
pub fn put(alloc: Global, map: &mut NodeMap, name: &str, node: Node) -> Result<(), NoMemory>
    ensures ok { OnOk result (map.new ≡ put_member name.now (tree_of node) map.old) }
    ensures err { OnErr result (map.new ≡ map.old) }
{
    map.put(Text::from_text(alloc, name)?, node)?;
    Ok(())
}

/// Puts a text at a name, in place of what is there.
pub fn put_text(alloc: Global, map: &mut NodeMap, name: &str, text: &str) -> Result<(), NoMemory>
    ensures ok { OnOk result (map.new ≡ put_member name.now (words text.now) map.old) }
    ensures err { OnErr result (map.new ≡ map.old) }
{
    put(alloc, map, name, Node::Words(Text::from_text(alloc, text)?))?;
    Ok(())
}

/// A number in decimal digits, with no leading zero.
pub fn number_text(alloc: Global, number: u64) -> Result<String, NoMemory>
    ensures { IfOk result (λ t. string_bytes t ≡ index_text number) }
{
    let text = format!(in alloc; "{number}")?;
    Ok(text)
}
