//! The turns of the script, one after another.

ghost use Rattle.std.specs.Prelude.{◌≡◌, [], ◌∷◌, IfSome, None};
ghost use Rattle.spec_exercise.specs.Script as spec;
ghost use Rattle.exercise_script.specs.View.{turn_view};

use std::marker::Model;

/// A turn.
#[derive(Clone, Copy, Debug, PartialEq, Eq, Drop)]
pub(crate) struct Turn {
    /// Its number, from 0.
    pub(crate) number: u32,
    /// The number that is drawn for it.
    pub(crate) drawn: u16,
    /// The number of its request on the wire, from 1.
    pub(crate) wire: u64,
    /// The number of its latest document on the wire.
    pub(crate) latest: u64,
}

impl Turn {
    /// Its request is passed on.
    pub(crate) fn is_passed(self) -> bool
        ensures { result ≡ spec.is_passed self.drawn }
    {
        self.drawn % 3 == 0
    }

    /// Its delivery is repeated.
    pub(crate) fn is_repeated(self) -> bool
        ensures { result ≡ spec.is_repeated self.drawn }
    {
        self.drawn % 5 == 0
    }
}

/// Turns that are left, which contracts see as their list.
#[derive(Drop)]
pub(crate) struct Turns {
    left: u32,
    number: u32,
    x: u32,
    wire: u64,
}

impl Model for Turns {
    ghost use Rattle.std.specs.Prelude.{List, ◌+◌, ◌*◌, ◌^◌, ◌<◌, ◌≤◌};
    ghost use Rattle.spec_exercise.specs.Script.{Turn, turns_from};

    ghost Value = { List Turn };

    ghost view = { λ t. turns_from t.left t.number t.x t.wire };

    ghost invariant = { λ t. (t.number + t.left < 2 ^ 32) × (t.wire ≤ 2 * t.number) };
}

// The x of the next turn.
fn next_x(x: u32) -> u32
    ensures { result ≡ spec.next_x x }
{
    ((1103515245 * u64::from(x) + 12345) % 2147483648) as u32
}

// What a turn's x draws.
fn drawn_from(x: u32) -> u16
    ensures { result ≡ spec.drawn_from x }
{
    (x / 65536) as u16
}

impl Turns {
    /// So many turns.
    pub(crate) fn new(count: u32) -> Turns
        ensures { result ≡ spec.turns count }
    {
        Turns {
            left: count,
            number: 0,
            x: 1,
            wire: 0,
        }
    }

    /// The next turn, or `None` exactly where none is left.
    pub(crate) fn next_turn(&mut self) -> Option<Turn>
        ensures turn { IfSome result (λ turn. self.old ≡ turn_view turn ∷ self.new) }
        ensures latest { IfSome result (λ turn. turn.latest ≡ spec.latest (turn_view turn)) }
        ensures end { result ≡ None → (self.old ≡ []) × (self.new ≡ []) }
    {
        if self.left == 0 {
            return None;
        }
        let x = next_x(self.x);
        let drawn = drawn_from(x);
        let wire = self.wire + 1;
        let latest = if drawn % 3 == 0 { wire + 1 } else { wire };
        let number = self.number;
        self.left -= 1;
        self.number += 1;
        self.x = x;
        self.wire = latest;
        Some(Turn {
            number,
            drawn,
            wire,
            latest,
        })
    }
}
