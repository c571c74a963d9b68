// The arguments of a row, as they stand there.
use n32_values::{Node, NodeList, NodeMap};

/// A row, and the documents that earlier rows have named.
#[derive(Clone, Copy)]
pub struct Args<'a> {
    pub names: &'a NodeMap,
    pub row: &'a NodeMap,
}

// The document that a name stands for, or else the node itself.
fn named<'a>(names: &'a NodeMap, node: &'a Node) -> &'a Node {
    match node {
        Node::Words(name) => names.get(name.as_str()).unwrap_or(node),
        _ => node,
    }
}

/// The number that a node is.
pub fn number_of(node: &Node) -> Option<u32> {
    match node {
        Node::Whole(number) => u32::try_from(number.value()).ok(),
        _ => None,
    }
}

impl<'a> Args<'a> {
    /// The argument of this name, or the document that it names.
    pub fn document(self, name: &str) -> Option<&'a Node> {
        match self.row.get(name) {
            Some(node) => Some(named(self.names, node)),
            None => None,
        }
    }

    /// The list of this name, or the one that it names.
    pub fn list(self, name: &str) -> Option<&'a NodeList> {
        match self.document(name) {
            Some(Node::Items(list)) => Some(list),
            _ => None,
        }
    }

    /// The text of this name.
    pub fn text(self, name: &str) -> Option<&'a str> {
        match self.row.get(name) {
            Some(Node::Words(text)) => Some(text.as_str()),
            _ => None,
        }
    }

    /// The number of this name.
    pub fn number(self, name: &str) -> Option<u32> {
        number_of(self.row.get(name)?)
    }

    /// `mapping`, the number of a mapping, where null stands for none.
    pub fn mapping(self) -> Option<Option<u32>> {
        match self.row.get("mapping")? {
            Node::Null => Some(None),
            node => number_of(node).map(Some),
        }
    }
}
