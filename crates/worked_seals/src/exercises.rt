// The calls of `exercise_script`. `messages` is the number of turns.
use exercise_script::{Line, Script, Summary, line_text};
use n32_values::{Node, NodeList};
use std::alloc::Global;
use worked_rows::{Args, text_node, words_of};

// The line of a number, from 1.
fn line_at(script: &mut Script, number: u32) -> Option<Line> {
    let mut line = None;
    for _ in 0..number {
        line = script.next_line();
    }
    line
}

fn line_node(alloc: Global, line: Line) -> Option<Node> {
    match line_text(alloc, line) {
        Ok(text) => words_of(alloc, text),
        Err(_) => None,
    }
}

/// The line of the number `line`, from 1, or null where the script is shorter.
pub fn exercise_line_call(alloc: Global, args: Args<'_>) -> Option<Node> {
    let mut script = Script::new(args.number("messages")?);
    match line_at(&mut script, args.number("line")?) {
        Some(line) => line_node(alloc, line),
        None => Some(Node::Null),
    }
}

fn take_line(alloc: Global, summary: &mut Summary, line: Line) -> Option<()> {
    match line_text(alloc, line) {
        Ok(text) => summary.take(alloc, text.as_slice()).ok(),
        Err(_) => None,
    }
}

// Whether all lines that are left were taken as answers. A script has at most four lines a turn, and six before them.
fn take_lines(alloc: Global, summary: &mut Summary, script: &mut Script, messages: u32) -> bool {
    for _ in 0..4 * u64::from(messages) + 7 {
        match script.next_line() {
            Some(line) => {
                if take_line(alloc, summary, line).is_none() {
                    return false;
                }
            }
            None => return true,
        }
    }
    false
}

fn summary_node(alloc: Global, summary: Summary, messages: u32) -> Option<Node> {
    match summary.text(alloc, messages) {
        Ok(text) => text_node(alloc, text.as_str()),
        Err(_) => None,
    }
}

/// The summary of the script's own lines, as if they were answers.
pub fn script_summary_call(alloc: Global, args: Args<'_>) -> Option<Node> {
    let messages = args.number("messages")?;
    let mut script = Script::new(messages);
    let mut summary = Summary::new();
    if take_lines(alloc, &mut summary, &mut script, messages) {
        summary_node(alloc, summary, messages)
    } else {
        None
    }
}

fn take_answer(alloc: Global, summary: &mut Summary, answer: &Node) -> Option<()> {
    match answer {
        Node::Words(text) => summary.take(alloc, text.as_str().as_bytes()).ok(),
        _ => None,
    }
}

// Whether all texts of a list were taken as answers.
fn take_answers(alloc: Global, summary: &mut Summary, answers: &NodeList) -> bool {
    for i in 0..answers.len() {
        if take_answer(alloc, summary, answers.item(i)).is_none() {
            return false;
        }
    }
    true
}

/// The summary of the texts `answers`.
pub fn exercise_summary_call(alloc: Global, args: Args<'_>) -> Option<Node> {
    let messages = args.number("messages")?;
    let answers = args.list("answers")?;
    let mut summary = Summary::new();
    if take_answers(alloc, &mut summary, answers) {
        summary_node(alloc, summary, messages)
    } else {
        None
    }
}
