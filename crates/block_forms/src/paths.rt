// The paths of a block's items.
ghost use Rattle.std.specs.Prelude.{◌≡◌, ◌≤◌, ◌^◌, not, Some, None, IfOk, MatchResult, length, map as list_map, codes, bytes_eq};
ghost use Rattle.std.specs.List.{list_any};
ghost use Rattle.spec_documents.specs.Hole.{mark};
ghost use Rattle.spec_messages.specs.Block.{members_of};
ghost use Rattle.spec_messages.specs.Fault as spec;
ghost use Rattle.n32_values.specs.View.{tree_of};
ghost use Rattle.block_forms.specs.Paths.{paths_of, RefusesPaths};

use crate::line::text_of;
use json_ptr::{Pointer, PointerRead, read_pointer};
use n32_values::{List, NoMemory, Node, NodeList, Text};
use std::alloc::Global;

/// Why the items of a block have no paths.
#[derive(Clone, Copy, Debug, PartialEq, Eq, Drop)]
pub(crate) enum PathsRead {
    // The item of this number, from 1, has no pointer's text, or one with a token `encBlockIndex`.
    Pathless(u32),
    NoMemory,
}

impl From<NoMemory> for PathsRead {
    ghost use Rattle.std.specs.Prelude.{◌≡◌};
    ghost use Rattle.block_forms.specs.declared.paths.PathsRead.TheVariants.{NoMemory as refused_memory};

    ghost from_gives = { λ _ e. e ≡ refused_memory };

    fn from(_refused: NoMemory) -> PathsRead {
        PathsRead::NoMemory
    }
}

fn is_mark(token: &Text) -> bool
    ensures { result ≡ bytes_eq mark token.now }
{
    "encBlockIndex" == token.as_str()
}

fn has_mark(path: &Pointer) -> bool
    ensures { result ≡ list_any (bytes_eq mark) path.now }
{
    path.tokens().as_slice().iter().any(|token| is_mark(token))
}

fn path_text(item: &Node) -> &str
    ensures { result.now ≡ spec.text_of (codes "iePath") (members_of (tree_of item.now)) }
{
    match item {
        Node::Members(map) => text_of(map, "iePath"),
        _ => "",
    }
}

// The path of an item, if it is a pointer without a token `encBlockIndex`.
fn read_path(alloc: Global, item: &Node) -> Result<Option<Pointer>, NoMemory>
    ensures { IfOk result (λ path. path ≡ spec.path_of (tree_of item.now)) }
{
    match read_pointer(alloc, path_text(item)) {
        Ok(path) => if has_mark(&path) {
            Ok(None)
        } else {
            Ok(Some(path))
        },
        Err(PointerRead::Fault(_)) => Ok(None),
        Err(PointerRead::NoMemory) => Err(NoMemory),
    }
}

// The paths of the items, in order, or the number of the first item that has none.
pub(crate) fn read_paths(alloc: Global, list: &NodeList) -> Result<List<Pointer>, PathsRead>
    requires { length list.now ≤ 4096 }
    ensures { MatchResult result
        (λ paths. (spec.first_pathless 1 list.now ≡ None) × (paths ≡ paths_of list.now))
        (λ why. RefusesPaths why (spec.first_pathless 1 list.now)) }
{
    let mut paths = List::new(alloc);
    for i in 0..list.len() {
        match read_path(alloc, list.item(i))? {
            Some(path) => paths.push(path)?,
            None => return Err(PathsRead::Pathless(i as u32 + 1)),
        }
    }
    Ok(paths)
}
