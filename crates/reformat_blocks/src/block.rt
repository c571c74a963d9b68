// A block and the values that it hides.
use block_forms::Block;
use n32_values::NodeList;

/// What a message is split into: its block, and the values that stand in the place of the block's
/// holes, the value of hole n at n.
#[derive(Drop)]
pub struct Split {
    pub block: Block,
    pub values: NodeList,
}
