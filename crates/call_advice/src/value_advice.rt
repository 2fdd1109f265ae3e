// Values that are refused, and what may have been meant.
use crate::bad_value::push_bad_value;
use crate::given::{gives_option, name_of, value_of};
use load_options::word_at;
use person_line::Part::Text;
use person_line::{Line, can_be_copied};

/// What stands around names and types in another program's list of them.
const AROUND: [char; 5] = ['{', '}', '\'', '"', ' '];

/// Whether a word stands alone behind a comma.
fn is_cut_by_space(words: &[String], index: usize) -> bool {
    let next = word_at(words, index.saturating_add(1));
    value_of(word_at(words, index)).ends_with(',') && !next.is_empty() && !next.contains('=')
}

/// A pair of a name and a type as `column_types` takes it.
fn push_pair(pairs: &mut Line, pair: &str) {
    let (name, ty) = pair.rsplit_once(':').unwrap_or((pair, ""));
    let (name, ty) = (name.trim_matches(AROUND), ty.trim_matches(AROUND));
    pairs.say("{}:{}", &[Text(name), Text(ty)]);
}

/// Pairs of a name and a type as `column_types` takes them.
fn push_pairs(said: &mut Line, value: &str) {
    let mut pairs = Line::new(said.alloc());
    pairs.push("column_types=");
    let mut is_first = true;
    for pair in value.split(',') {
        if !is_first {
            pairs.push(",");
        }
        is_first = false;
        push_pair(&mut pairs, pair);
    }
    said.quote(&pairs);
}

/// What is said of types in place of the first that is none, and whether that is so.
fn push_types_meant(said: &mut Line, words: &[String], index: usize) -> bool {
    let value = value_of(word_at(words, index));
    if value.contains(':') && can_be_copied(value) {
        said.push("types has no names: ");
        push_pairs(said, value);
        return true;
    }
    let is_cut = value.contains(", ") || is_cut_by_space(words, index);
    let has_space = is_cut && !value.contains(':');
    if has_space {
        said.push("no space stands behind a comma");
    }
    has_space
}

/// What is said behind why a value is refused.
fn push_advice(said: &mut Line, word: &str) {
    let (name, value) = (name_of(word), value_of(word));
    if value.is_empty() && gives_option(word, "delim") {
        said.say("; a shell takes ; and | for its own: '{}=;'", &[Text(name)]);
    } else if name == "to" && value.contains(['.', '/']) && can_be_copied(value) {
        said.push("; ");
        said.quoted("output={}", &[Text(value)]);
        said.push(" names the file");
    }
}

/// Why a value is refused, and what may have been meant.
pub fn push_refused_value(said: &mut Line, words: &[String], index: usize) {
    let word = word_at(words, index);
    if gives_option(word, "types") && push_types_meant(said, words, index) {
        return;
    }
    push_bad_value(said, words, index);
    push_advice(said, word);
}
