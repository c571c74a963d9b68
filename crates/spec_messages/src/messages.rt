//! Messages and their documents.

ghost use Rattle.std.specs.Prelude.{◌≡◌, Ok, IsTrue};
ghost use Rattle.spec_documents.specs.Tree.{Tree};
ghost use Rattle.spec_messages.specs.Message.{Message, message_of, is_whole};
ghost use Rattle.spec_messages.specs.Printing.{message_tree};

/// What is read from a document is whole.
pub fn what_is_read_is_whole()
    ensures { (t : Tree) (m : Message) → message_of t ≡ Ok m → IsTrue (is_whole m) }
{}

/// The document of a whole message is read to this message.
pub fn what_is_printed_is_read()
    ensures { (m : Message) → IsTrue (is_whole m) → message_of (message_tree m) ≡ Ok m }
{}
