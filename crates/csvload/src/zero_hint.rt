// A hint at columns of numbers that lose leading zeros.
use crate::cast_help::{can_be_given, is_found};
use crate::message::Run;
use crate::text_columns::name_told;
use call_advice::{command_word, gives, is_given, word_giving};
use csv_sniffer::ZERO_COLUMNS;
use person_line::Part::Text;
use person_line::{Line, can_be_copied};

/// How many columns are named.
const MOST_NAMED: usize = 5;

/// What the names of columns come to.
#[derive(Clone, Copy)]
struct Named {
    /// How many can be given by their names.
    count: usize,
    /// Whether there is one whose name isn't known.
    is_unknown: bool,
}

/// A pair for each column of these bits whose type was found and whose name a word can give, behind the pairs that are given.
fn push_pairs(word: &mut Line, run: Run<'_>, columns: u64) -> Named {
    let given = word_giving(run.words, "column_types");
    word.push(given.unwrap_or("column_types="));
    let mut count = 0usize;
    let mut is_unknown = false;
    for column in 0..ZERO_COLUMNS {
        if columns >> column & 1 == 0 {
            continue;
        }
        let Some(name) = name_told(run.words, run.text, column) else {
            is_unknown = true;
            continue;
        };
        if is_found(run.words, name) && can_be_given(name) {
            if count < MOST_NAMED {
                let comma = if count > 0 || given.is_some() {
                    ","
                } else {
                    ""
                };
                word.say("{}{}:VARCHAR", &[Text(comma), Text(name)]);
            }
            count = count.saturating_add(1);
        }
    }
    if count > MOST_NAMED {
        word.push(", ..");
    }
    Named { count, is_unknown }
}

/// Whether words say what type each column has, or none has values that are written.
fn are_types_given(words: &[String]) -> bool {
    is_given(words, "types")
        || gives(words, "all_varchar", "true")
        || command_word(words) == "rejects"
}

/// A word between quotes, as a shell takes it.
fn push_word(said: &mut Line, word: &Line) {
    if word.text().contains('\'') {
        said.quote(word);
    } else {
        said.say("'{}'", &[Text(word.text())]);
    }
}

/// The hint at columns of these bits, as far as their names are known.
pub fn push_zeros(said: &mut Line, run: Run<'_>, columns: u64) {
    let given = word_giving(run.words, "column_types");
    if columns == 0 || are_types_given(run.words) || !can_be_copied(given.unwrap_or("")) {
        return;
    }
    let mut word = Line::new(said.alloc());
    let named = push_pairs(&mut word, run, columns);
    if named.count > 0 {
        said.next_line();
        said.push("hint: leading zeros are lost; ");
        push_word(said, &word);
        said.push(" keeps them");
    } else if named.is_unknown && given.is_none() {
        said.next_line();
        said.push(
            "hint: leading zeros are lost; 'column_types=NAME:VARCHAR' keeps those of the column NAME",
        );
    }
}
