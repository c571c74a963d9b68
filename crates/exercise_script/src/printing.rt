//! The texts of lines.

ghost use Rattle.std.specs.Prelude.{◌≡◌, IfOk};
ghost use Rattle.n32_values.specs.View.{tree_of};
ghost use Rattle.spec_exercise.specs.Documents as spec;
ghost use Rattle.exercise_script.specs.View.{line_view};

use crate::line::Line;
use crate::opening::{context_node, keys_node, node_node};
use crate::turn::{deliver_node, pass_node, send_node};
use n32_values::{Bytes, NoMemory, Node, doc_text};
use std::alloc::Global;

fn line_node(alloc: Global, line: Line) -> Result<Node, NoMemory>
    ensures { IfOk result (λ n. tree_of n ≡ spec.line_tree (line_view line)) }
{
    match line {
        Line::AddNode(sepp) => node_node(alloc, sepp),
        Line::AddContext(sepp) => context_node(alloc, sepp),
        Line::AddKeys(sepp) => keys_node(alloc, sepp),
        Line::Send { turn, drawn } => send_node(alloc, turn, drawn),
        Line::Pass { wire, drawn } => pass_node(alloc, wire, drawn),
        Line::Deliver { wire } => deliver_node(alloc, wire),
    }
}

/// The compact text of a line, without its newline.
///
/// # Errors
/// `NoMemory` where memory was refused.
pub fn line_text(alloc: Global, line: Line) -> Result<Bytes, NoMemory>
    ensures { IfOk result (λ text. text ≡ spec.line_text (line_view line)) }
{
    doc_text(alloc, &line_node(alloc, line)?)
}
