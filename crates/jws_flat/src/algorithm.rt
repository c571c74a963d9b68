//! The algorithm that a protected header names.

ghost use Rattle.std.specs.Prelude.{◌≡◌, [], ◌∷◌, IfOk, option_map, codes};
ghost use Rattle.spec_documents.specs.Compact.{compact_text};
ghost use Rattle.spec_documents.specs.Gives.{Gives};
ghost use Rattle.spec_documents.specs.Tree.{members, words, object};
ghost use Rattle.spec_messages.specs.Message.{wanted};
ghost use Rattle.spec_sealing.specs.Jws as spec;
ghost use Rattle.jws_flat.specs.View.{alg_view, member_told};

use crate::members::{EntryMember, JwsRead};
use doc_forms::{Grammar, text_at};
use jwe_flat::read_header;
use n32_outside::JwsAlg;
use n32_values::{NoMemory, NodeMap, Text, base64url_text};
use std::alloc::Global;

fn algorithm_named(name: &str) -> Option<JwsAlg>
    ensures { option_map alg_view result ≡ spec.algorithm_named name.now }
{
    match name {
        "HS256" => Some(JwsAlg::Hs256),
        "ES256" => Some(JwsAlg::Es256),
        _ => None,
    }
}

fn algorithm_in(map: &NodeMap) -> Option<JwsAlg>
    ensures { option_map alg_view result ≡ spec.algorithm_in map.now }
{
    if map.get("crit").is_some() {
        return None;
    }
    match text_at(map, "alg", Grammar::Any) {
        Some(name) => algorithm_named(name),
        None => None,
    }
}

// The algorithm that the text of a protected header names.
pub(crate) fn read_algorithm(alloc: Global, protected: &str) -> Result<JwsAlg, JwsRead>
    ensures { Gives member_told alg_view result (wanted (spec.algorithm_of protected.now) (codes "protected")) }
{
    let Some(map) = read_header(alloc, protected)? else {
        return Err(JwsRead::Form(EntryMember::Protected));
    };
    match algorithm_in(&map) {
        Some(alg) => Ok(alg),
        None => Err(JwsRead::Form(EntryMember::Protected)),
    }
}

#[tactic(auto, unfolding(json::specs::Print::escape_byte))]
fn compact_header(alg: JwsAlg) -> &'static str
    ensures { result.now ≡ compact_text (members (object ((codes "alg", words (spec.algorithm_name (alg_view alg))) ∷ []))) }
{
    match alg {
        JwsAlg::Hs256 => "{\"alg\":\"HS256\"}",
        JwsAlg::Es256 => "{\"alg\":\"ES256\"}",
    }
}

// The text of the header that is written.
pub(crate) fn header_text(alloc: Global, alg: JwsAlg) -> Result<Text, NoMemory>
    ensures { IfOk result (λ t. t ≡ spec.signed_header (alg_view alg)) }
{
    base64url_text(alloc, compact_header(alg).as_bytes())
}
