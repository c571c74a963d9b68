// A screen: a rule, and a test that answers what it says.
ghost use Rattle.std.specs.Prelude.{◌≡◌};
ghost use Rattle.http_message.specs.Reading.{message_view};
ghost use Rattle.message_screens.specs.Following.{Follows};
ghost use Rattle.message_screens.specs.Screening.{IsScreen, rule_of};

use crate::rules::ScreenRule;
use http_message::Message;
use n32_values::PlmnId;

/// A rule on messages, with a test that answers what the rule says.
///
/// A struct can't yet keep a fact on a closure that it holds. So `new` hands out that the test follows the rule,
/// and each function that takes a screen has it as a condition.
#[derive(Drop)]
pub struct Screen<F: Fn(&Message, &PlmnId) -> bool, R: ScreenRule> {
    test: F,
    rule: R,
}

impl<F: Fn(&Message, &PlmnId) -> bool, R: ScreenRule> Screen<F, R> {
    /// The screen of a rule, whose test may be asked of every message and answers what the rule says.
    pub fn new(test: F, rule: R) -> Screen<F, R>
        requires { Follows F.Fn test (R.passes rule) }
        ensures screen { IsScreen F.Fn R.passes result }
        ensures rule { rule_of result ≡ rule }
    {
        Screen { test, rule }
    }

    /// Whether the rule passes a message of a peer in the network. It takes no memory.
    pub fn test(&self, message: &Message, plmn: &PlmnId) -> bool
        requires { IsScreen F.Fn R.passes self.now }
        ensures { result ≡ R.passes (rule_of self.now) (message_view message.now) plmn.now }
    {
        (self.test)(message, plmn)
    }
}
