// Lists of suites.
ghost use Rattle.std.specs.Prelude.{◌≡◌, map, option_map};
ghost use Rattle.jwe_flat.specs.View.{suite_view};
ghost use Rattle.spec_records.specs.RecordDocument as document;
ghost use Rattle.spec_handshake.specs.Calls as calls;

use jwe_flat::Suite;
use n32_values::List;

/// Suites, in the order of a document or of an offer.
pub type SuiteList = List<Suite>;

fn is_same_suite(one: Suite, other: Suite) -> bool
    ensures { result ≡ calls.same_suite (suite_view one) (suite_view other) }
{
    match one {
        Suite::A128Gcm => matches!(other, Suite::A128Gcm),
        Suite::A256Gcm => matches!(other, Suite::A256Gcm),
    }
}

pub(crate) fn suite_of(word: &str) -> Option<Suite>
    ensures { option_map suite_view result ≡ document.suite_of word.now }
{
    if word == "A128GCM" {
        Some(Suite::A128Gcm)
    } else if word == "A256GCM" {
        Some(Suite::A256Gcm)
    } else {
        None
    }
}

pub(crate) fn has_suite(list: &SuiteList, suite: Suite) -> bool
    ensures { result ≡ calls.has_suite (map suite_view list.now) (suite_view suite) }
{
    for i in 0..list.len() {
        if is_same_suite(suite, *list.item(i)) {
            return true;
        }
    }
    false
}

/// The first suite that was asked for and is offered.
pub(crate) fn common_suite(asked: &SuiteList, offered: &SuiteList) -> Option<Suite>
    ensures { option_map suite_view result ≡ calls.common_suite (map suite_view asked.now) (map suite_view offered.now) }
{
    for i in 0..asked.len() {
        let suite = *asked.item(i);
        if has_suite(offered, suite) {
            return Some(suite);
        }
    }
    None
}
