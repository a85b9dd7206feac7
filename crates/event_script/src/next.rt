//! What comes next in a script.
ghost use Rattle.std.specs.Prelude.{◌≡◌, ◌≤◌, ◌↔◌, true, length, take, IsTrue, IfErr, IfOk, MatchOption, MatchResult};
ghost use Rattle.answer_model.specs.Faults.{has_no_end, is_open};
ghost use Rattle.event_script.specs.Next.{AreTooMany, Decides, IsOfLine, IsRefusedFor, SaysAt};
ghost use Rattle.event_script.specs.Views.{HasMessage, IsInRange, line_view};

use crate::message::Message;
use crate::words::place_of;
use crate::{Line, LineFault, read_line};

/// The most lines of a script.
pub(crate) const MAX_LINES: u32 = 1_000_000;

/// The most bytes of a line, without its LF.
pub(crate) const MAX_LINE_LEN: usize = 120;

/// What comes next in a script.
#[derive(Clone, Copy, Debug, PartialEq, Eq)]
pub enum Next {
    /// The next line says this. [`Lines::message`](crate::Lines::message) has the bytes of an `opt` or `mbus` line.
    Got(Line),
    /// The next line is refused, whatever the record in force: it is outside the grammar, too long or one too many.
    Bad(LineFault),
    /// There is no further line.
    End,
    /// The source failed, and its count of faults rose.
    ReadFault,
}

// What a line says, where `given` lines stand before it, or why it is refused whatever the record in force. The bytes of
// an `opt` or `mbus` line go into `message`.
pub(crate) fn judge(line: &[u8], given: u32, message: &mut Message) -> Result<Line, LineFault>
    ensures says { MatchResult result (λ said. SaysAt given line.now (line_view said message.new.items)) (λ kind. IsRefusedFor given line.now kind) }
    ensures range { IfOk result IsInRange }
    ensures some { IfOk result (λ said. HasMessage said message.new.items) }
    ensures kind { IfErr result IsOfLine }
{
    if given >= MAX_LINES {
        return Err(LineFault::TooMany);
    }
    if line.len() > MAX_LINE_LEN {
        return Err(LineFault::TooLong);
    }
    match read_line(line, message) {
        Ok(said) => Ok(said),
        Err(fault) => Err(LineFault::Grammar { at: fault.at }),
    }
}

// How long the first line is as far as it is held, where the bytes that are held behind `given` lines decide what it
// says or why it is refused. The first `looked` of them are known to have no LF.
pub(crate) fn first_len(held: &[u8], looked: usize, given: u32) -> Option<usize>
    requires within { looked ≤ length held.now }
    requires clear { has_no_end (take looked held.now) ≡ true }
    ensures { MatchOption result (is_open given held.now ≡ true) (Decides given held.now) }
{
    if let Some(at) = place_of(&held[looked..], b'\n') {
        return Some(looked + at);
    }
    if are_too_many(held.len(), given) {
        return Some(held.len());
    }
    None
}

// So many bytes of a line behind `given` lines are too many for it, or the line is one too many.
fn are_too_many(len: usize, given: u32) -> bool
    ensures { IsTrue result ↔ AreTooMany given len }
{
    len > MAX_LINE_LEN || (given >= MAX_LINES && len > 0)
}
