// Commands that may be copied, with the words that were given: without them something else would be read.
use crate::content::Content;
use crate::given::{FIRST_OPTION, command_word, gives_one_of, subject};
use csv_source::STANDARD_INPUT;
use person_line::Part::{File, Name, Shell, Text};
use person_line::{Line, can_be_copied, push_list};

/// The options that were given but those of some names, each behind a space and as a shell takes it.
pub fn push_kept(said: &mut Line, words: &[String], left_out: &[&str]) {
    for word in words.iter().skip(FIRST_OPTION) {
        let word = word.as_str();
        if !gives_one_of(word, left_out) {
            said.say(" {}", &[Shell(word)]);
        }
    }
}

/// The same, or the advice to give them, where they are long or can't be copied.
pub fn push_again(said: &mut Line, words: &[String], left_out: &[&str]) {
    let mut kept = Line::new(said.alloc());
    push_kept(&mut kept, words, left_out);
    if kept.is_short() {
        said.push(kept.text());
    } else {
        said.push(", with the same words");
    }
}

/// Whether standard input may be read in place of a file. Not where that is taken already, and not where the file stands twice.
fn may_be_piped(words: &[String], file: &str) -> bool {
    let mut is_found = false;
    for name in subject(words).split(',') {
        let is_it = name == file;
        if (is_it && is_found) || (!is_it && !is_kept(name)) {
            return false;
        }
        is_found = is_found || is_it;
    }
    is_found
}

/// Whether a file may stand beside standard input in a command that may be copied.
fn is_kept(name: &str) -> bool {
    name != STANDARD_INPUT && can_be_copied(name)
}

/// How a file is read through a program that makes CSV of it.
fn push_piping(said: &mut Line, words: &[String], file: &str, tool: &str) {
    let is_batch = command_word(words) == "batch";
    if is_batch && !may_be_piped(words, file) {
        return said.say(": unpack '{}' first", &[Name(file)]);
    }
    if !can_be_copied(file) {
        return;
    }
    said.say(": {}", &[Text(tool)]);
    if file != STANDARD_INPUT {
        said.say(" {}", &[File(file)]);
    }
    said.say(" | csvload {} ", &[Text(command_word(words))]);
    if is_batch {
        push_list(said, subject(words), file, STANDARD_INPUT);
    } else {
        said.push(STANDARD_INPUT);
    }
    push_again(said, words, &[]);
}

/// What is said of a file that is no CSV as it stands.
pub fn push_content(said: &mut Line, words: &[String], file: &str, content: Content) {
    let what = if file == STANDARD_INPUT {
        "input"
    } else {
        "file"
    };
    let (Content::Through(state, _) | Content::Other(state)) = content;
    said.say("the {} {}", &[Text(what), Text(state)]);
    if let Content::Through(_, tool) = content {
        push_piping(said, words, file, tool);
    }
}
