// The call of `doc_forms`.
use doc_forms::Grammar;
use n32_values::Node;
use worked_rows::{Args, Given};

fn grammar_of(word: &str) -> Option<Grammar> {
    match word {
        "any" => Some(Grammar::Any),
        "segment" => Some(Grammar::Segment),
        "query name" => Some(Grammar::QueryName),
        "query value" => Some(Grammar::QueryValue),
        "scheme" => Some(Grammar::Scheme),
        "authority" => Some(Grammar::Authority),
        "version" => Some(Grammar::Version),
        "header name" => Some(Grammar::HeaderName),
        "header value" => Some(Grammar::HeaderValue),
        "identity" => Some(Grammar::Identity),
        "node name" => Some(Grammar::NodeName),
        "id" => Some(Grammar::Id),
        _ => None,
    }
}

/// Whether `text` is of `grammar`.
pub fn fits_call(args: Args<'_>, given: &Given) -> Option<Node> {
    let grammar = grammar_of(args.text("grammar")?)?;
    let text = given.text.as_ref()?;
    Some(Node::Truth(grammar.fits(text.as_str())))
}
