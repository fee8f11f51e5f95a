//! The place of a hint in a line of code, and the line with it.
ghost use Rattle.std.specs.Prelude.{◌≡◌, ◌++◌, ◌∷◌, [], drop, OnOk, OnSome, string_bytes};
ghost use Rattle.std.specs.Str.{IsCharBoundary};
ghost use Rattle.em_hint.specs.Lines as spec;
ghost use Rattle.em_hint.specs.Lines.{IsWaitLine, hinted_line, label_size};

use em_base::pieces::{after, before, has, skip_blanks};
use em_base::{NoMemory, SemId};

/// What follows the label of a line, or the whole line where it has none. A colon in the comment ends no label.
fn unlabelled(line: &[u8]) -> &[u8]
    ensures { result.now ≡ drop (label_size line.now) line.now }
{
    if has(before(line, b'#'), b':') {
        after(line, b':')
    } else {
        line
    }
}

/// The place behind the word `waitjob`, with which the statement of the line begins.
fn hint_place(line: &str) -> usize
    requires { IsWaitLine line.now }
    ensures place { result ≡ spec.hint_place line.now }
    ensures boundary { IsCharBoundary line.now result }
{
    let statement = skip_blanks(unlabelled(line.as_bytes()));
    line.len() - statement.len() + "waitjob".len()
}

/// Puts a line with a hint at the end of a text: the hint's number stands behind the word `waitjob`, after a space.
fn push_with_hint(text: &mut String, line: &str, hint: SemId) -> Result<(), NoMemory>
    requires { IsWaitLine line.now }
    ensures { OnOk result (string_bytes text.new
        ≡ string_bytes text.old ++ hinted_line (Some hint) line.now) }
{
    let (front, rest) = line.split_at(hint_place(line));
    text.push_str(front)?;
    write!(text, " {}", hint.0)?;
    text.push_str(rest)?;
    Ok(())
}

/// Puts a line at the end of a text, with its hint where it is to have one, and one line end.
pub(crate) fn push_line(text: &mut String, line: &str, hint: Option<SemId>) -> Result<(), NoMemory>
    requires { OnSome hint (IsWaitLine line.now) }
    ensures { OnOk result (string_bytes text.new
        ≡ string_bytes text.old ++ (hinted_line hint line.now ++ 10 ∷ [])) }
{
    match hint {
        Some(hint) => push_with_hint(text, line, hint)?,
        None => text.push_str(line)?,
    }
    text.push('\n')?;
    Ok(())
}
