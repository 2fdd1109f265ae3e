// What is said where a file isn't as the words want it.
use call_advice::{command_word, file_at};
use person_line::Line;
use person_line::Part::{Bytes, Name, Number, Subject};
use report_text::Mismatch;
use value_types::Names;

/// The most names of columns in a line.
const COLUMNS_SAID: usize = 20;

/// Names of columns in a line, the first of them where there are many.
fn push_columns(said: &mut Line, names: &Names) {
    for column in 0..names.len().min(COLUMNS_SAID) {
        if column > 0 {
            said.push(", ");
        }
        said.say("{}", &[Bytes(names.get(column))]);
    }
    if names.len() > COLUMNS_SAID {
        said.push(", ..");
    }
}

/// That the words don't fit the file.
pub fn push_mismatch(said: &mut Line, words: &[String], mismatch: &Mismatch) {
    let subject = Subject(file_at(words, 0));
    match mismatch {
        Mismatch::NoColumn(name, names) => {
            let name = Bytes(name.as_slice());
            said.say("no column is named '{}': the columns are ", &[name]);
            push_columns(said, names);
        }
        Mismatch::OtherHeader(file, names) => {
            // The words are UTF-8, so each name in them is.
            let file = str::from_utf8(file.as_slice()).unwrap_or("");
            said.say(
                "'{}' hasn't the header of {}, whose columns are ",
                &[Name(file), subject],
            );
            push_columns(said, names);
        }
        Mismatch::TooManyColumns(limit) => {
            let template = match command_word(words) {
                "split" => "{} has more than {} columns, the most that types takes",
                _ => "{} has more than {} columns, the most that a table of SQLite has",
            };
            said.say(template, &[subject, Number(*limit)]);
        }
        Mismatch::LongName(column, most) => {
            let template =
                "{} can't be written as arrays: a name in their file takes {} bytes at most, and that of column {} (from 0) more; names= gives others";
            said.say(template, &[subject, Number(*most), Number(*column)]);
        }
    }
}
