// A screen of each rule, made and asked: that the test follows the rule is proved where the screen is made.
ghost use Rattle.std.specs.Prelude.{◌≡◌};
ghost use Rattle.spec_exchange.specs.Screens.{method_passes, origin_passes};
ghost use Rattle.http_message.specs.Reading.{message_view};

use crate::rules::{MethodRule, OriginRule};
use crate::screen::Screen;
use http_message::Message;
use n32_values::{PlmnId, TextList};

/// What the screen of `OriginRule` says of a message of a peer in the network.
pub fn screened_by_origin(message: &Message, plmn: &PlmnId) -> bool
    ensures { result ≡ origin_passes (message_view message.now) plmn.now }
{
    let screen = Screen::new(
        |m: &Message, p: &PlmnId| OriginRule::passes(m, p),
        OriginRule,
    );
    screen.test(message, plmn)
}

/// What the screen of a `MethodRule` says of a message, where the test has a list of methods equal to the
/// rule's.
pub fn screened_by_method(
    methods: &TextList,
    rule: MethodRule,
    message: &Message,
    plmn: &PlmnId,
) -> bool
    requires { rule.methods ≡ methods.now }
    ensures { result ≡ method_passes methods.now (message_view message.now) plmn.now }
{
    let screen = Screen::new(
        |m: &Message, _: &PlmnId| MethodRule::passes(methods, m),
        rule,
    );
    screen.test(message, plmn)
}
