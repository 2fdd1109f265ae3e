// What lists the faults of a file, and what is said of a run that had more of them than wanted.
use crate::again::push_kept;
use crate::given::{command_word, subject};
use csv_source::STANDARD_INPUT;
use person_line::Part::{File, Number, Subject, Text};
use person_line::{Line, can_be_copied};

/// Options that `rejects` refuses, or that say how many faults may be, which are kept, and where the text goes. All others
/// have a say in which faults there are, or in how the work is done.
const LEFT_OUT: [&str; 7] = [
    "ignore_errors",
    "store_rejects",
    "rejects_limit",
    "max_errors",
    "to",
    "table",
    "output",
];

/// The call of `rejects` that lists the faults of a file: without the words other rows might be faulty.
fn push_rejects_call(said: &mut Line, words: &[String], them: &str) {
    let mut kept = Line::new(said.alloc());
    push_kept(&mut kept, words, &LEFT_OUT);
    if kept.is_short() && can_be_copied(subject(words)) {
        said.say(
            "csvload rejects {}{} lists {}",
            &[File(subject(words)), Text(kept.text()), Text(them)],
        );
    } else {
        said.say(
            "csvload rejects lists {}, with the same words but max_errors, to, table and output",
            &[Text(them)],
        );
    }
}

/// What lists the faults of one file that can be read again, behind a mark.
pub fn push_lister(said: &mut Line, words: &[String], mark: &str, them: &str) {
    let is_one = !matches!(command_word(words), "batch" | "rejects");
    if is_one && subject(words) != STANDARD_INPUT {
        said.push(mark);
        push_rejects_call(said, words, them);
    }
}

/// That there are more faults than wanted, and what lists those of one file that can be read again.
pub fn push_too_many_faults(said: &mut Line, words: &[String], bound: u64) {
    match command_word(words) {
        "batch" => said.push("the files have"),
        _ => said.say("{} has", &[Subject(subject(words))]),
    }
    let template = match bound {
        1 => " more than {} fault (max_errors)",
        _ => " more than {} faults (max_errors)",
    };
    said.say(template, &[Number(bound)]);
    push_lister(said, words, ": ", "them");
}
