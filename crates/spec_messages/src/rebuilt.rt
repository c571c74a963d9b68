//! A law of messages whose holes are filled.

ghost use Rattle.std.specs.Prelude.{◌≡◌, List, Some, None};
ghost use Rattle.spec_documents.specs.Tree.{Tree};
ghost use Rattle.spec_messages.specs.Message.{Message};
ghost use Rattle.spec_messages.specs.Split.{fill_whole, filled};
ghost use Rattle.spec_messages.specs.Rebuilt.{FillFault, fill_fault};

/// A message with holes has a fill exactly where there is no cause against it.
pub fn fill_fault_decides()
    ensures none { (vs : List Tree) (m : Message) → fill_fault vs m ≡ None → filled vs m ≡ Some (fill_whole vs m) }
    ensures some { (vs : List Tree) (m : Message) (why : FillFault) → fill_fault vs m ≡ Some why → filled vs m ≡ None }
{}
