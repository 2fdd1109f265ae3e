// What helps where a value can't be cast.
use crate::help_line::FirstFault;
use call_advice::{gives, is_given, number_given, value_of, word_giving};
use csv_sniffer::{SAMPLE_LIMIT, Sniffed};
use load_options::limits::SAMPLE_SIZE;
use person_line::Part::{Number, Text};
use person_line::{Line, MOST, can_be_copied};
use reject_book::Reject;
use value_types::ColumnType;

/// How the values of a type are written.
fn spelling(ty: ColumnType) -> &'static str {
    match ty {
        ColumnType::Boolean => "a BOOLEAN is written true or false; ",
        ColumnType::Bigint => "a BIGINT is written in digits alone; ",
        ColumnType::Date => "a DATE is written 2024-12-31; ",
        ColumnType::Time => "a TIME is written 10:30:00; ",
        ColumnType::Timestamp => "a TIMESTAMP is written 2024-12-31 10:30:00; ",
        ColumnType::Varchar => "",
    }
}

/// The type of the column in which a fault lies.
fn type_of_column(sniffed: &Sniffed, reject: &Reject) -> Option<ColumnType> {
    let column = reject.column_idx.checked_sub(1)?;
    sniffed.types.as_slice().get(column as usize).copied()
}

/// Whether a word gives the type of the column of that name.
fn is_named(words: &[String], name: &str) -> bool {
    let Some(word) = word_giving(words, "column_types") else {
        return false;
    };
    value_of(word).split(',').any(|pair| match pair.rsplit_once(':') {
        Some((column, _)) => column == name,
        None => false,
    })
}

/// Whether the type of the column of that name was found.
pub fn is_found(words: &[String], name: &str) -> bool {
    !is_given(words, "types") && !gives(words, "all_varchar", "true") && !is_named(words, name)
}

/// Whether a word can give the type of the column of that name, and isn't long.
pub fn can_be_given(name: &str) -> bool {
    !name.is_empty() && !name.contains(',') && name.chars().count() <= MOST && can_be_copied(name)
}

/// What keeps the values of a column as they are, beside the types that are given.
fn push_kept_text(said: &mut Line, words: &[String], name: &str) {
    let given = word_giving(words, "column_types");
    if can_be_given(name) && can_be_copied(given.unwrap_or("")) {
        match given {
            Some(given) => said.quoted("{},{}:VARCHAR", &[Text(given), Text(name)]),
            None => said.quoted("column_types={}:VARCHAR", &[Text(name)]),
        }
        said.push(" keeps this column as text; ");
    } else if given.is_none() {
        // The two can't stand together.
        said.push("all_varchar=true keeps texts; ");
    }
}

/// Whether a larger sample would have the row.
fn may_be_sampled(words: &[String], reject: &Reject) -> bool {
    reject.file_id == 0
        && reject.line_byte_position < SAMPLE_LIMIT as u64
        && number_given(words, "sample_size", SAMPLE_SIZE) < SAMPLE_SIZE.most
}

/// What helps against a value that can't be cast, before what helps against any fault.
pub fn push_cast_help(said: &mut Line, fault: &FirstFault<'_>) {
    // A name that isn't UTF-8 can't be given.
    let name = str::from_utf8(fault.reject.column_name.as_slice()).unwrap_or("");
    if is_found(fault.words, name) {
        push_kept_text(said, fault.words, name);
        if may_be_sampled(fault.words, fault.reject) {
            let most = SAMPLE_SIZE.most;
            said.say("sample_size={} looks at more rows; ", &[Number(most)]);
        }
    } else if let Some(ty) = type_of_column(fault.sniffed, fault.reject) {
        said.push(spelling(ty));
    }
}
