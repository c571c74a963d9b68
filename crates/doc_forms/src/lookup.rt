// The members of an object that are texts.
ghost use Rattle.std.specs.Prelude.{◌≡◌};
ghost use Rattle.std.specs.Option.{option_copied};
ghost use Rattle.spec_messages.specs.Message as spec;
ghost use Rattle.doc_forms.specs.Grammars.{test_of};

use crate::grammar::Grammar;
use n32_values::{Node, NodeMap};

/// The member `name` of an object, if it is there and is a text of the grammar.
pub fn text_at<'a>(map: &'a NodeMap, name: &str, grammar: Grammar) -> Option<&'a str>
    ensures { option_copied result ≡ spec.text_at (test_of grammar) name.now map.now }
{
    match map.get(name) {
        Some(Node::Words(text)) => {
            let text = text.as_str();
            if grammar.fits(text) { Some(text) } else { None }
        }
        _ => None,
    }
}
