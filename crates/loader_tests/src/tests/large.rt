//! Many made rows.
use csv_source::OpenGate;
use loader_runs::{Cut, Outside, Run, WHOLE};
use std::alloc::Global;
use std::sync::Wait;
use std::thread::Threads;

/// Room for the made rows.
const VAST: Outside = Outside {
    room: 50_000_000,
    ..WHOLE
};

/// Some 40 MB.
const MAKE: Run<'static, 'static> = Run {
    words: &["make", "7", "rows=800000"],
    files: &[],
    outside: VAST,
    cut: None,
};

const MANY_SUMMED: &[u8] = b"options|delim=,|quote=\"|escape=\"|newline=\\n|skip=0|header=true\n\
column|0|BIGINT|id\n\
column|1|BOOLEAN|ok\n\
column|2|DATE|day\n\
column|3|VARCHAR|note\n\
rows|800000\n\
errors|0|0\n\
tap|count|800000|3200000\n\
tap|span|0|0|799999\n\
tap|width|3|22\n\
tap|over|1001\n";

/// Words, how the outside behaves, and what they are to come to.
#[derive(Clone, Copy)]
struct Asked {
    words: &'static [&'static str],
    outside: Outside,
    status: u8,
    /// None: the rows themselves.
    text: Option<&'static [u8]>,
}

const SUMMARY: Asked = Asked {
    words: &["summary", "f.csv"],
    outside: WHOLE,
    status: 0,
    text: Some(MANY_SUMMED),
};

const PIPED: Asked = Asked {
    words: &["summary", "f.csv", "pipeline=true"],
    ..SUMMARY
};

/// The input takes some 600 calls.
const TORN: Asked = Asked {
    outside: Outside {
        source_piece: 65_536,
        failing_source_call: Some(200),
        ..WHOLE
    },
    status: 2,
    text: Some(b"fault|read\n"),
    ..PIPED
};

const CONVERT: Asked = Asked {
    words: &[
        "convert",
        "f.csv",
        "header=true",
        "types=BIGINT,BOOLEAN,DATE,VARCHAR",
    ],
    outside: VAST,
    status: 0,
    text: None,
};

/// Whether on so many threads the rows come to what is asked.
fn come_to<R: Threads + Wait + Sync>(
    rt: &R,
    alloc: Global,
    rows: &[u8],
    asked: &Asked,
    threads: usize,
) -> bool {
    let run = Run {
        words: asked.words,
        files: &[("f.csv", rows)],
        outside: asked.outside,
        cut: Some(Cut {
            range_size: 1_048_576,
            threads,
        }),
    };
    let text = asked.text.unwrap_or(rows);
    run.comes_to(rt, alloc, &OpenGate, asked.status, text)
}

/// Whether the made rows do.
fn made_rows_come_to<R: Threads + Wait + Sync>(
    rt: &R,
    alloc: Global,
    asked: &Asked,
    threads: usize,
) -> bool {
    match MAKE.reply(rt, alloc, &OpenGate) {
        Ok(made) => come_to(rt, alloc, made.text(), asked, threads),
        Err(_) => false,
    }
}

/// Whether they do on one, four and eight threads.
fn always_come_to<R: Threads + Wait + Sync>(rt: &R, alloc: Global, asked: &Asked) -> bool {
    made_rows_come_to(rt, alloc, asked, 1)
        && made_rows_come_to(rt, alloc, asked, 4)
        && made_rows_come_to(rt, alloc, asked, 8)
}

#[test]
fn many_made_rows_have_their_summary(rt: HostRuntime) {
    assert!(rt; always_come_to(&rt, rt.alloc(), &SUMMARY));
}

#[test]
fn many_made_rows_have_their_summary_while_more_is_read(rt: HostRuntime) {
    assert!(rt; made_rows_come_to(&rt, rt.alloc(), &PIPED, 4));
}

#[test]
fn a_call_that_fails_while_stages_scan_is_a_read_fault(rt: HostRuntime) {
    assert!(rt; made_rows_come_to(&rt, rt.alloc(), &TORN, 4));
}

#[test]
fn many_made_rows_are_written_as_they_are(rt: HostRuntime) {
    assert!(rt; always_come_to(&rt, rt.alloc(), &CONVERT));
}
