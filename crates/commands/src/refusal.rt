//! Refusals in words, as the program writes them.

ghost use Rattle.std.specs.Prelude.{◌≡◌, ◌≢◌, ◌≤◌, ◌+◌, ◌++◌, false, length};
ghost use Rattle.std.specs.Fmt.{decimal};
ghost use Rattle.commands.specs.Refusal.{WritesLine, at_place_words, fault_words, hint_words, place_words, reason_words, refusal_line, script_words, status_of};

use crate::hint::Hint;
use crate::refused::Refused;
use source_text::{Fault, OutputBuffer, Reason, Sink, write_text};

/// The exit status of a refusal: 1 for a bad cost table, else 2.
pub fn status(fault: Fault) -> u8
    ensures { result ≡ status_of fault }
{
    match fault {
        Fault::BadTable(..) => 1,
        _ => 2,
    }
}

/// The name under which a reason is written.
fn reason_name(reason: Reason) -> &'static str
    ensures { result.now ≡ reason_words reason }
{
    match reason {
        Reason::Form => "Form",
        Reason::Shape => "Shape",
        Reason::None => "None",
        Reason::High => "High",
        Reason::Total => "Total",
    }
}

/// Adds a number, which has at most 20 digits.
fn push_number(line: &mut OutputBuffer, number: usize)
    requires { length line.old ≤ 79 }
    ensures digits { line.new ≡ line.old ++ decimal number }
    ensures short { length line.new ≤ length line.old + 20 }
{
    line.push_number(number);
}

/// Adds the line and the column.
fn push_line_column(line: &mut OutputBuffer, refused: &Refused)
    requires { length line.old ≤ 58 }
    ensures words { line.new ≡ line.old ++ place_words refused.now.line refused.now.column }
    ensures short { length line.new ≤ length line.old + 41 }
{
    push_number(line, refused.line as usize);
    line.push_text(":");
    push_number(line, refused.column as usize);
}

/// Adds ` at `, the line and the column, where there is a place.
fn push_any_place(line: &mut OutputBuffer, refused: &Refused)
    requires { length line.old ≤ 54 }
    ensures words { line.new ≡ line.old ++ at_place_words refused.now.line refused.now.column }
    ensures short { length line.new ≤ length line.old + 45 }
{
    if refused.line == 0 {
        return;
    }
    line.push_text(" at ");
    push_line_column(line, refused);
}

/// Adds that the refusal speaks of the second script, where it does.
fn push_script(line: &mut OutputBuffer, in_second: bool)
    requires { length line.old ≡ 8 }
    ensures words { line.new ≡ line.old ++ script_words in_second }
    ensures short { length line.new ≤ 21 }
{
    if in_second {
        line.push_text("second file: ");
    }
}

/// Adds what the fault says.
fn push_words(line: &mut OutputBuffer, refused: &Refused)
    requires start { length line.old ≤ 21 }
    requires known { refused.now.fault ≢ Fault.Usage }
    ensures words { line.new ≡ line.old ++ fault_words refused.now.fault refused.now.line refused.now.column }
    ensures short { length line.new ≤ 108 }
{
    match refused.fault {
        Fault::NotUtf8(at) => {
            line.push_text("not UTF-8 at byte ");
            push_number(line, at);
        }
        Fault::TooLong => line.push_text("longer than 16777216 bytes"),
        Fault::Syntax(_) => {
            line.push_text("syntax error at ");
            push_line_column(line, refused);
        }
        Fault::TooDeep => line.push_text("nested too deep"),
        Fault::Early(number, _) => {
            line.push_text("early error E");
            push_number(line, usize::from(number));
            line.push_text(" at ");
            push_line_column(line, refused);
        }
        Fault::OutOfMemory => line.push_text("out of memory"),
        Fault::BadSettings => {
            line.push_text("bad settings");
            push_any_place(line, refused);
        }
        Fault::BadTable(row, reason) => {
            line.push_text("bad table row ");
            push_number(line, row as usize);
            line.push_text(" ");
            line.push_text(reason_name(reason));
        }
        Fault::WriteFailed => line.push_text("write failed"),
        Fault::ReadFailed => line.push_text("read failed"),
        Fault::UnwrapFailed => line.push_text("can't be unwrapped"),
        Fault::FormatFailed => line.push_text("can't be formatted"),
        Fault::Usage => unreachable!(),
    }
}

/// Adds what to say for the later language that takes the text, where one is known to, or the language that refuses it.
fn push_hint(line: &mut OutputBuffer, hint: Hint)
    requires start { length line.old ≤ 108 }
    ensures words { line.new ≡ line.old ++ hint_words hint }
    ensures short { length line.new ≤ 134 }
{
    match hint {
        Hint::Edition2022 => line.push_text(" (perhaps: --edition 2022)"),
        Hint::Module => line.push_text(" (perhaps: --module)"),
        Hint::InBase => line.push_text(" (in the base profile)"),
        Hint::InScript => line.push_text(" (as a script of 2022)"),
        Hint::InModule => line.push_text(" (as a module)"),
        Hint::Nothing | Hint::Unknown => {}
    }
}

/// Writes the line of a refusal: `jslint: `, what it says, its hint, and a line feed. It takes no memory, and stops where the
/// writer fails. Answers the refusal's exit status in either case.
pub fn write_refusal<W: Sink>(refused: &Refused, writer: &mut W) -> u8
    requires ready { W.failed writer.old ≡ false }
    requires known { refused.now.fault ≢ Fault.Usage }
    ensures status { result ≡ status_of refused.now.fault }
    ensures line { WritesLine (refusal_line refused.now) (W.taken writer.old) (W.taken writer.new) (W.failed writer.new) }
{
    let mut line = OutputBuffer::new();
    line.push_text("jslint: ");
    push_script(&mut line, refused.in_second);
    push_words(&mut line, refused);
    push_hint(&mut line, refused.hint);
    line.push(b'\n');
    let _ = write_text(line.as_bytes(), writer);
    status(refused.fault)
}
