//! The summary of answers.

ghost use Rattle.std.specs.Prelude.{◌≡◌, ◌<◌, ◌^◌, ◌++◌, [], ◌∷◌, ℕ, List, length, min, IfOk, OnOk, OnErr, Some, codes};
ghost use Rattle.std.specs.Fmt.{decimal};
ghost use Rattle.hex.specs.Hex.{encode_lower};
ghost use Rattle.spec_documents.specs.Reading.{document_of};
ghost use Rattle.n32_values.specs.View.{tree_of};
ghost use Rattle.spec_exercise.specs.Summary as spec;
ghost use Rattle.exercise_script.specs.Sums.{HasTaken};

use n32_values::{Doc, DocFault, NoMemory, Node, Text, read_doc};
use sha2::{Digest, Sha256};
use std::alloc::Global;

/// Counts answers, and hashes their lines (SHA-256: FIPS 180-4).
#[derive(Drop)]
pub struct Summary {
    answers: u64,
    delivered: u64,
    refused: u64,
    hasher: Sha256,
}

// Whether a node is an object with a member of this name.
fn has_member(node: &Node, name: &str) -> bool
    ensures { result ≡ spec.has_member name.now (Some (tree_of node.now)) }
{
    match node {
        Node::Members(map) => map.get(name).is_some(),
        _ => false,
    }
}

// The members that count: `delivered` and `refused`.
fn told_of(alloc: Global, answer: &[u8]) -> Result<(bool, bool), NoMemory>
    ensures delivered { IfOk result (λ told. told.0 ≡ spec.answer_has (codes "delivered") answer.now) }
    ensures refused { IfOk result (λ told. told.1 ≡ spec.answer_has (codes "refused") answer.now) }
{
    match read_doc(alloc, answer) {
        Ok(document) => {
            let node = document.node();
            Ok((has_member(node, "delivered"), has_member(node, "refused")))
        }
        Err(DocFault::NoMemory) => Err(NoMemory),
        Err(_) => Ok((false, false)),
    }
}

// The five lines with these counts and this digest.
fn five_lines(
    alloc: Global,
    messages: u32,
    answers: u64,
    delivered: u64,
    refused: u64,
    digest: &str,
) -> Result<Text, NoMemory>
    ensures { IfOk result (λ text. text ≡ spec.five_lines messages answers delivered refused digest.now) }
{
    Ok(Text::from_string(format!(in alloc;
        "messages {messages}\nanswers {answers}\ndelivered {delivered}\nrefused {refused}\nsha256 {digest}\n"
    )?))
}

impl Summary {
    /// The summary of no answer.
    pub fn new() -> Summary
        ensures { HasTaken result [] }
    {
        Summary {
            answers: 0,
            delivered: 0,
            refused: 0,
            hasher: Sha256::new(),
        }
    }

    /// Takes the text of one answer more, without its newline.
    ///
    /// # Errors
    /// `NoMemory` where memory was refused; then the answer isn't taken.
    pub fn take(&mut self, alloc: Global, answer: &[u8]) -> Result<(), NoMemory>
        ensures taken { OnOk result ((answers : List (List ℕ)) → HasTaken self.old answers → HasTaken self.new (answers ++ answer.now ∷ [])) }
        ensures same { OnErr result (self.new ≡ self.old) }
    {
        let (delivered, refused) = told_of(alloc, answer)?;
        self.answers = self.answers.saturating_add(1);
        if delivered {
            self.delivered = self.delivered.saturating_add(1);
        }
        if refused {
            self.refused = self.refused.saturating_add(1);
        }
        self.hasher.update(answer);
        self.hasher.update(b"\n");
        Ok(())
    }

    /// The five lines for so many messages: `messages`, `answers`, `delivered` and `refused` with their numbers, and
    /// `sha256` with the digest of all answers' lines in lower case.
    ///
    /// # Errors
    /// `NoMemory` where memory was refused.
    pub fn text(self, alloc: Global, messages: u32) -> Result<Text, NoMemory>
        ensures { IfOk result (λ text. (answers : List (List ℕ)) → HasTaken self answers → length answers < 2 ^ 64 → text ≡ spec.summary_text messages answers) }
    {
        let answers = self.answers;
        let delivered = self.delivered;
        let refused = self.refused;
        let digest = hex::encode(alloc, self.hasher.finalize())?;
        let text = five_lines(
            alloc,
            messages,
            answers,
            delivered,
            refused,
            digest.as_str(),
        )?;
        Ok(text)
    }
}
