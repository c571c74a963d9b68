// What the reading of a block's line and headers keeps of its definition.
ghost use Rattle.std.specs.Prelude.{◌≡◌, map as list_map, Option, option_map, IsTrue, List};
ghost use Rattle.spec_documents.specs.Tree.{Tree, Members};
ghost use Rattle.spec_messages.specs.Message.{Head, Header, head_of, headers_of};
ghost use Rattle.spec_messages.specs.Block.{block_parts};
ghost use Rattle.http_message.specs.declared.form.Form.TheVariants.{Block};
ghost use Rattle.http_message.specs.Forms.{parts_of};
ghost use Rattle.http_message.specs.Kept.{kept_head, kept_header, ok_map, is_held_head, are_held_headers};

/// The line and the headers of a block are read as their definition says, but for holes whose number
/// a `u32` doesn't hold: these have the greatest number. Where each number is held, all is as it was.
pub fn block_parts_are_kept()
    ensures head { (ms : Members) → head_of (parts_of Block) ms ≡ ok_map kept_head (head_of block_parts ms) }
    ensures headers { (t : Option Tree) → headers_of (parts_of Block) t ≡ option_map (list_map kept_header) (headers_of block_parts t) }
    ensures same_head { (h : Head) → IsTrue (is_held_head h) → kept_head h ≡ h }
    ensures same_headers { (hs : List Header) → IsTrue (are_held_headers hs) → list_map kept_header hs ≡ hs }
{}
