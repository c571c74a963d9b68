//! The lines of the script, one after another.

ghost use Rattle.std.specs.Prelude.{◌≡◌, ◌<◌, [], ◌∷◌, IfSome, OnSome, None, slice_get, option_map, length};
ghost use Rattle.spec_exercise.specs.Script as spec;
ghost use Rattle.exercise_script.specs.Parts.{lines_left, lines_of_turns, part_after_send, part_after_delivery};
ghost use Rattle.exercise_script.specs.View.{line_view};

use crate::line::{Line, Sepp};
use crate::turns::{Turn, Turns};
use std::marker::Model;

// What comes next: an opening line, the next turn, or the rest of a turn from its pass, its delivery or its repetition.
#[derive(Clone, Copy, Drop)]
pub(crate) enum Part {
    Opening(u8),
    NextTurn,
    Pass(Turn),
    Deliver(Turn),
    Repeat(Turn),
}

/// What is left of the script of `exercise N`, which contracts see as the list of its lines.
#[derive(Drop)]
pub struct Script {
    part: Part,
    turns: Turns,
}

impl Model for Script {
    ghost use Rattle.std.specs.Prelude.{List};
    ghost use Rattle.spec_exercise.specs.Script.{Line};
    ghost use Rattle.exercise_script.specs.Parts.{lines_left};

    ghost Value = { List Line };

    ghost view = { λ s. lines_left s.part s.turns };
}

// The opening line of a number, from 0.
fn opening_line(number: u8) -> Option<Line>
    ensures line { option_map line_view result ≡ slice_get spec.opening number }
    ensures within { OnSome result (number < 6) }
{
    match number {
        0 => Some(Line::AddNode(Sepp::Sender)),
        1 => Some(Line::AddNode(Sepp::Receiver)),
        2 => Some(Line::AddContext(Sepp::Sender)),
        3 => Some(Line::AddContext(Sepp::Receiver)),
        4 => Some(Line::AddKeys(Sepp::Sender)),
        5 => Some(Line::AddKeys(Sepp::Receiver)),
        _ => None,
    }
}

// What comes after the request of a turn.
fn after_send(turn: Turn) -> Part
    ensures { result ≡ part_after_send turn }
{
    if turn.is_passed() {
        Part::Pass(turn)
    } else {
        Part::Deliver(turn)
    }
}

// What comes after the delivery of a turn.
fn after_delivery(turn: Turn) -> Part
    ensures { result ≡ part_after_delivery turn }
{
    if turn.is_repeated() {
        Part::Repeat(turn)
    } else {
        Part::NextTurn
    }
}

// Takes the request of the next turn.
fn next_send(part: &mut Part, turns: &mut Turns) -> Option<Line>
    ensures line { IfSome result (λ line. lines_of_turns turns.old ≡ line_view line ∷ lines_left part.new turns.new) }
    ensures end { result ≡ None → (lines_of_turns turns.old ≡ []) × (lines_left part.new turns.new ≡ []) }
{
    match turns.next_turn() {
        Some(turn) => {
            *part = after_send(turn);
            Some(Line::Send {
                turn: turn.number,
                drawn: turn.drawn,
            })
        }
        None => {
            *part = Part::NextTurn;
            None
        }
    }
}

impl Script {
    /// The script with so many turns.
    pub fn new(turns: u32) -> Script
        ensures { result ≡ spec.script turns }
    {
        Script {
            part: Part::Opening(0),
            turns: Turns::new(turns),
        }
    }

    /// Takes the next line, or `None` exactly where none is left.
    pub fn next_line(&mut self) -> Option<Line>
        ensures line { IfSome result (λ line. self.old ≡ line_view line ∷ self.new) }
        ensures end { result ≡ None → (self.old ≡ []) × (self.new ≡ []) }
    {
        match self.part {
            Part::Opening(number) => match opening_line(number) {
                Some(line) => {
                    self.part = Part::Opening(number + 1);
                    Some(line)
                }
                None => next_send(&mut self.part, &mut self.turns),
            },
            Part::NextTurn => next_send(&mut self.part, &mut self.turns),
            Part::Pass(turn) => {
                self.part = Part::Deliver(turn);
                Some(Line::Pass {
                    wire: turn.wire,
                    drawn: turn.drawn,
                })
            }
            Part::Deliver(turn) => {
                self.part = after_delivery(turn);
                Some(Line::Deliver { wire: turn.latest })
            }
            Part::Repeat(turn) => {
                self.part = Part::NextTurn;
                Some(Line::Deliver { wire: turn.latest })
            }
        }
    }
}
