// What is said of a part of a file that is longer than a load reads.
use crate::given::{command_word, subject};
use load_options::limits::MAX_INPUT;
use person_line::Line;
use person_line::Part::{Name, Number};
use value_types::number_within;

/// What begins a line of the report that has a part.
const PART: &[u8] = b"part|";

/// Where a part's line tells how many bytes it has.
const LENGTH: usize = 3;

/// Where it tells the physical line in which the part begins.
const LINE: usize = 4;

/// The number that stands at a place of a line.
fn number_at(line: &[u8], place: usize) -> Option<u64> {
    number_within(line.split(|byte| *byte == b'|').nth(place)?, u64::MAX)
}

/// The physical line in which the first part begins that is longer than a load reads.
fn line_of_long(report: &[u8]) -> Option<u64> {
    for line in report.split(|byte| *byte == b'\n') {
        if line.starts_with(PART) && MAX_INPUT.most < number_at(line, LENGTH)? {
            return number_at(line, LINE);
        }
    }
    None
}

/// That a part is longer than a load reads, where the text tells of one. Behind a quote that is never closed all is one row.
pub fn push_long_part(said: &mut Line, words: &[String], report: &[u8]) {
    if command_word(words) == "split"
        && let Some(line) = line_of_long(report)
    {
        said.next_line();
        said.say(
            "{}:{}: this part has more than {} bytes: is a quote not closed?",
            &[Name(subject(words)), Number(line), Number(MAX_INPUT.most)],
        );
    }
}
