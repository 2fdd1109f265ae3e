// The first fault of a load, as compilers show one.
ghost use Rattle.std.specs.Prelude.{◌≤◌, length};

use person_line::Part::{Bytes, Name, Number};
use person_line::{Line, push_excerpt};
use reject_book::{ErrorKind, Reject};

/// What stands before a value that can't be cast, behind the column's name.
const BEFORE_VALUE: &[u8] = b"Could not convert string \"";

/// How many bytes of a CAST's message tell the column, beside its name.
const COLUMN_TEXT: usize = b"Error when converting column \"\". ".len();

/// The place of the last double quote of a text, or its end.
fn last_quote(text: &[u8]) -> usize
    ensures { result ≤ length text.now }
{
    for (place, byte) in text.iter().enumerate().rev() {
        if *byte == b'"' {
            return place;
        }
    }
    text.len()
}

/// The message of a CAST without its column, and with a value that isn't long.
fn push_cast(said: &mut Line, reject: &Reject) {
    let message = reject.error_message.as_slice();
    let front = COLUMN_TEXT.saturating_add(reject.column_name.as_slice().len());
    let told = message.get(front..).unwrap_or(message);
    let Some(rest) = told.strip_prefix(BEFORE_VALUE) else {
        return said.say("{}", &[Bytes(told)]);
    };
    // No type's name has a quote, so the last one ends the value.
    let (value, behind) = rest.split_at(last_quote(rest));
    said.say(
        "Could not convert string \"{}{}",
        &[Bytes(value), Bytes(behind)],
    );
}

/// Where a fault stands and what it is, the row around it, and a caret below it.
pub fn push_row_fault(said: &mut Line, file: &str, reject: &Reject) {
    let (line, column) = (reject.line, reject.column_idx);
    said.say(
        "{}:{}: column {}",
        &[Name(file), Number(line), Number(column)],
    );
    let name = reject.column_name.as_slice();
    if !name.is_empty() {
        said.say(" '{}'", &[Bytes(name)]);
    }
    said.push(": ");
    match reject.error_type {
        ErrorKind::Cast => push_cast(said, reject),
        _ => said.say("{}", &[Bytes(reject.error_message.as_slice())]),
    }
    said.push("\n");
    let byte = reject
        .byte_position
        .saturating_sub(reject.line_byte_position);
    push_excerpt(said, reject.csv_line.as_slice(), byte);
}
