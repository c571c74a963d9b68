// The template of a path, read from the text of `apiSignature`.
ghost use Rattle.std.specs.Prelude.{◌≡◌, ◌&&◌, ◌==◌, ◌+◌, map, not, drop, length, nat_lt, bytes_eq};
ghost use Rattle.std.specs.List.{list_all, list_any};
ghost use Rattle.spec_documents.specs.Text as texts;
ghost use Rattle.spec_messages.specs.Message.{wanted, all_read};
ghost use Rattle.spec_messages.specs.PolicyDocument as document;
ghost use Rattle.policy_documents.specs.Reading.{Gives};
ghost use Rattle.policy_documents.specs.View.{pattern_view};

use crate::policy::{Pattern, PatternList};
use crate::read::PolicyRead;
use doc_forms::{cut, is_segment};
use n32_values::Text;
use std::alloc::Global;

fn is_name_byte(byte: u8) -> bool
    ensures { result ≡ document.is_name_byte byte }
{
    is_alphanumeric(byte) || byte == b'-' || byte == b'_'
}

fn is_alphanumeric(byte: u8) -> bool
    ensures { result ≡ texts.is_alphanumeric byte }
{
    byte.is_ascii_digit() || (b'A' <= byte && byte <= b'Z') || (b'a' <= byte && byte <= b'z')
}

fn are_name_bytes(text: &str) -> bool
    ensures { result ≡ list_all document.is_name_byte text.now }
{
    text.as_bytes().iter().all(|byte| is_name_byte(*byte))
}

fn is_variable_name(text: &str) -> bool
    ensures { result ≡ document.is_variable_name text.now }
{
    0 < text.len() && are_name_bytes(text)
}

// What stands behind an opening brace: a name, and the closing brace at the end.
fn read_variable(alloc: Global, text: &str, k: u32) -> Result<Pattern, PolicyRead>
    ensures { Gives pattern_view result (wanted (document.braced (texts.cut_at 125 text.now)) k) }
{
    let (name, end) = cut(text, '}');
    match end {
        Some(end) => {
            if end.len() == 0 && is_variable_name(name) {
                Ok(Pattern::Variable(Text::from_text(alloc, name)?))
            } else {
                Err(PolicyRead::Form(k))
            }
        }
        None => Err(PolicyRead::Form(k)),
    }
}

fn read_fixed(alloc: Global, text: &str, k: u32) -> Result<Pattern, PolicyRead>
    ensures { Gives pattern_view result (wanted (document.fixed_of text.now) k) }
{
    if !is_segment(text) {
        return Err(PolicyRead::Form(k));
    }
    Ok(Pattern::Fixed(Text::from_text(alloc, text)?))
}

fn read_pattern(alloc: Global, text: &str, k: u32) -> Result<Pattern, PolicyRead>
    ensures { Gives pattern_view result (wanted (document.pattern_of text.now) k) }
{
    match text.strip_prefix('{') {
        Some(rest) => read_variable(alloc, rest, k),
        None => read_fixed(alloc, text, k),
    }
}

fn read_pieces(alloc: Global, text: &str, k: u32) -> Result<PatternList, PolicyRead>
    ensures { Gives (map pattern_view) result (wanted (all_read document.pattern_of (texts.pieces 47 text.now)) k) }
{
    let mut patterns = PatternList::new(alloc);
    let mut rest = Some(text);
    'pieces: while let Some(left) = rest {
        let (piece, after) = cut(left, '/');
        patterns.push(read_pattern(alloc, piece, k)?)?;
        rest = after;
    }
    Ok(patterns)
}

fn read_patterns(alloc: Global, path: &str, k: u32) -> Result<PatternList, PolicyRead>
    ensures { Gives (map pattern_view) result (wanted (document.patterns_in path.now) k) }
{
    match path.strip_prefix('/') {
        Some(rest) => read_pieces(alloc, rest, k),
        None => Err(PolicyRead::Form(k)),
    }
}

fn is_variable(pattern: &Pattern, name: &str) -> bool
    ensures { result ≡ list_any (bytes_eq name.now) (document.name_list (pattern_view pattern.now)) }
{
    match pattern {
        Pattern::Fixed(_) => false,
        Pattern::Variable(own) => name == own.as_str(),
    }
}

// Whether one of the patterns from `first` on is the variable of a name.
fn has_variable(patterns: &PatternList, first: usize, name: &str) -> bool
    ensures { result ≡ list_any (bytes_eq name.now) (document.variable_names (map pattern_view (drop first patterns.now))) }
{
    for i in first..patterns.len() {
        if is_variable(patterns.item(i), name) {
            return true;
        }
    }
    false
}

// Pairwise: a template has few variables.
fn are_distinct(patterns: &PatternList) -> bool
    ensures { result ≡ document.are_distinct (document.variable_names (map pattern_view patterns.now)) }
{
    for i in 0..patterns.len() {
        match patterns.item(i) {
            Pattern::Fixed(_) => {}
            Pattern::Variable(name) => {
                if has_variable(patterns, i + 1, name.as_str()) {
                    return false;
                }
            }
        }
    }
    true
}

fn without_root(signature: &str) -> &str
    ensures { result.now ≡ document.without_root signature.now }
{
    match signature.strip_prefix("{apiRoot}") {
        Some(path) => path,
        None => signature,
    }
}

/// One or more times `/` and a segment or `{name}`, with no name twice; `{apiRoot}` in front is dropped.
pub(crate) fn read_template(
    alloc: Global,
    signature: &str,
    k: u32,
) -> Result<PatternList, PolicyRead>
    ensures { Gives (map pattern_view) result (wanted (document.template_of signature.now) k) }
{
    let patterns = read_patterns(alloc, without_root(signature), k)?;
    if !are_distinct(&patterns) {
        return Err(PolicyRead::Form(k));
    }
    Ok(patterns)
}
