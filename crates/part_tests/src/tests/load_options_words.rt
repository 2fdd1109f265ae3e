//! Lines of words that are accepted, and the options that they give.
use super::words::{accepted, is_accepted};
use load_options::{Choice, Options, OutputFormat, is_binary, is_npz, is_sqlite};
use std::alloc::Global;
use std::process::Abort;

fn has_dialect_defaults(options: &Options) -> bool {
    options.delim.is_none()
        && options.quote == Choice::Detect
        && options.escape == Choice::Detect
        && options.comment.is_none()
        && options.header.is_none()
}

fn has_number_defaults(options: &Options) -> bool {
    options.skip == 0
        && options.sample_size == 20_480
        && options.rejects_limit == 0
        && options.max_line_size == 2_097_152
        && options.max_input == 1_073_741_824
        && options.threads == 4
        && options.range_size == 1_048_576
}

fn has_truth_defaults(options: &Options) -> bool {
    options.allow_quoted_nulls
        && !options.all_varchar
        && !options.null_padding
        && !options.ignore_errors
        && !options.store_rejects
        && !options.stats
        && !options.pipeline
        && !options.explain
        && !options.same_header
}

fn has_text_defaults(options: &Options) -> bool {
    options.names.len() == 0
        && options.types.len() == 0
        && options.column_types.names.len() == 0
        && options.column_types.types.len() == 0
        && options.nullstr.as_slice() == b"".as_slice()
        && options.nulls.len() == 0
        && options.max_errors.is_none()
        && options.size.is_none()
        && options.to.is_none()
        && options.table.as_slice() == b"data".as_slice()
}

fn has_defaults(options: &Options) -> bool {
    has_dialect_defaults(options)
        && has_number_defaults(options)
        && has_truth_defaults(options)
        && has_text_defaults(options)
}

#[test]
fn options_that_are_not_given_have_defaults(rt: HostRuntime) {
    let request = accepted(&rt, rt.alloc(), "summary f.csv");
    assert!(rt; has_defaults(&request.options));
    assert!(rt; request.output.is_none());
}

const GIVEN: &str =
    "load f.csv delim=\\t quote= escape= nullstr=a=b names=x,y types=DATE,VARCHAR threads=064 skip=1000000 range_size=67108864 pipeline=true";

fn are_bytes_given(options: &Options) -> bool {
    options.delim == Some(b'\t')
        && options.quote == Choice::Nothing
        && options.escape == Choice::Nothing
        && options.nullstr.as_slice() == b"a=b".as_slice()
}

fn are_numbers_given(options: &Options) -> bool {
    options.names.len() == 2
        && options.types.len() == 2
        && options.threads == 64
        && options.skip == 1_000_000
        && options.range_size == 67_108_864
        && options.pipeline
}

#[test]
fn a_profile_passes_faults_over(rt: HostRuntime) {
    let options = accepted(
        &rt,
        rt.alloc(),
        "profile f.csv ignore_errors=false max_errors=3",
    )
    .options;
    assert!(rt; options.ignore_errors && !options.store_rejects && options.max_errors == Some(3));
}

#[test]
fn words_name_the_file_that_is_written(rt: HostRuntime) {
    let output = accepted(&rt, rt.alloc(), "summary f.csv output=a=b").output;
    assert!(rt; matches!(&output, Some(name) if name.as_slice() == b"a=b".as_slice()));
}

#[test]
fn accepted_words_give_options(rt: HostRuntime) {
    let request = accepted(&rt, rt.alloc(), GIVEN);
    assert!(rt; are_bytes_given(&request.options) && are_numbers_given(&request.options));
}

/// A line, the format that it gives, and the name of the table.
struct Formatted(&'static str, Option<OutputFormat>, &'static [u8]);

const FORMATTED: [Formatted; 9] = [
    Formatted("convert f.csv", None, b"data"),
    Formatted("convert f.csv to=csv", Some(OutputFormat::Csv), b"data"),
    Formatted(
        "convert f.csv to=sqlite",
        Some(OutputFormat::Sqlite),
        b"data",
    ),
    Formatted(
        "batch a.csv,b.csv table=sqlite to=sqlite",
        Some(OutputFormat::Sqlite),
        b"sqlite",
    ),
    Formatted(
        "convert f.csv to=sqlite table=reject_scan",
        Some(OutputFormat::Sqlite),
        b"reject_scan",
    ),
    Formatted(
        "convert f.csv to=sqlite table=a\"b",
        Some(OutputFormat::Sqlite),
        b"a\"b",
    ),
    Formatted(
        "convert f.csv to=sqlite table=DATA=1",
        Some(OutputFormat::Sqlite),
        b"DATA=1",
    ),
    Formatted("convert f.csv to=npz", Some(OutputFormat::Npz), b"data"),
    Formatted("batch a.csv,b.csv to=npz", Some(OutputFormat::Npz), b"data"),
];

fn is_formatted(options: &Options, row: &Formatted) -> bool {
    let is_text = row.1.is_none() || row.1 == Some(OutputFormat::Csv);
    options.to == row.1
        && is_sqlite(options.to) == (row.1 == Some(OutputFormat::Sqlite))
        && is_npz(options.to) == (row.1 == Some(OutputFormat::Npz))
        && is_binary(options.to) != is_text
        && options.table.as_slice() == row.2
}

fn gives_format(rt: &impl Abort, alloc: Global, row: &Formatted) -> bool {
    is_formatted(&accepted(rt, alloc, row.0).options, row)
}

#[test]
fn words_name_a_format_and_a_table(rt: HostRuntime) {
    for row in &FORMATTED {
        assert!(rt; gives_format(&rt, rt.alloc(), row), "{}", row.0);
    }
}

#[test]
fn ten_million_rows_are_made_at_most(rt: HostRuntime) {
    assert!(rt; is_accepted(&rt, rt.alloc(), "make 7 rows=10000000"));
}
