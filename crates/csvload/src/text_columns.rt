// The columns that the front of what was written tells: of a report and of a profile by their lines, of a written table by its
// first line.
use call_advice::command_word;

/// What begins the line of a column in a report.
const COLUMN: &str = "column|";

/// The type of a column of texts.
const TEXT: &str = "VARCHAR";

/// The line of that number, from 0, where it is whole.
fn whole_line(text: &[u8], number: usize) -> Option<&str> {
    let mut lines = text.split(|byte| *byte == b'\n').skip(number);
    let line = lines.next()?;
    lines.next()?;
    str::from_utf8(line).ok()
}

/// The type and the name, as it is shown, of a column of a report.
fn column_line(report: &[u8], column: usize) -> Option<(&str, &str)> {
    // Before the columns stands one line.
    let line = whole_line(report, column.saturating_add(1))?;
    let (_, rest) = line.strip_prefix(COLUMN)?.split_once('|')?;
    rest.split_once('|')
}

/// The name of a column in the first line of a written table, where no name there is quoted.
fn name_in_table(text: &[u8], column: usize) -> Option<&str> {
    let line = whole_line(text, 0)?;
    if line.contains('"') {
        return None;
    }
    line.split(',').nth(column)
}

/// The name in the line of a column of a profile, where no name there is quoted.
fn name_in_profile(text: &[u8], column: usize) -> Option<&str> {
    // Before the columns stands one line.
    let line = whole_line(text, column.saturating_add(1))?;
    if line.contains('"') {
        return None;
    }
    line.split(',').nth(1)
}

/// The name of the column of that number, from 0; none where what is known of the text doesn't tell it as it is.
pub fn name_told<'a>(words: &[String], text: &'a [u8], column: usize) -> Option<&'a str> {
    match command_word(words) {
        "convert" => return name_in_table(text, column),
        "profile" => return name_in_profile(text, column),
        _ => {}
    }
    match column_line(text, column) {
        Some((_, name)) if !name.contains('\\') => Some(name),
        _ => None,
    }
}

/// Whether a report tells one column, of texts.
pub fn tells_one_text(report: &[u8]) -> bool {
    match column_line(report, 0) {
        Some((ty, _)) => ty == TEXT && column_line(report, 1).is_none(),
        None => false,
    }
}
