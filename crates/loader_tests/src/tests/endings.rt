//! How runs end, with what was found out: each ending once.
use csv_loader::{Ending, run_to_ending};
use csv_source::{MemorySink, MemorySource, NoMemory, OpenGate};
use load_options::WordRule;
use loader_runs::{File, Outside, ROOMY, Run, words_of};
use reject_book::{ErrorKind, Reject};
use report_text::Mismatch;
use std::alloc::Global;
use std::sync::Wait;
use std::thread::Threads;

/// What is wanted of a first error: its file, line and column, its kind and its message.
struct Place {
    file_id: u64,
    line: u64,
    column: u64,
    kind: ErrorKind,
    message: &'static [u8],
}

/// The ending that is wanted.
enum End {
    Answered(u64),
    /// An answer with a hint at another delimiter.
    Hinted(u8),
    Refused(WordRule, usize),
    ReadFault,
    FirstError(Place),
    NoColumn(&'static [u8]),
    OtherHeader(&'static [u8]),
    WriteFault,
    TooLarge(u64),
    TooManyFaults(u64),
}

const FILES: &[File<'static>] = &[
    ("sound", b"1,a\n2,b\n"),
    ("fault", b"1,a\n2,b\nx,c\n"),
    ("faults", b"x,a\n2,b\ny,c\nz,d\n"),
    ("short", b"1,a\n2,b\n3\n"),
    // Two of five rows agree on four fields under the comma, and all on one under the bar.
    ("ragged", b"a,b,c,d\n1,2\n3,4,5\n6,7,8,9\n0\n"),
    // One column under each delimiter.
    ("column", b"a\n1\n2\n"),
];

fn is_at(place: &Place, reject: &Reject) -> bool {
    reject.file_id == place.file_id
        && reject.line == place.line
        && reject.column_idx == place.column
        && reject.error_type == place.kind
        && reject.error_message.as_slice() == place.message
}

/// Whether an ending is the one that is wanted.
fn is_wanted(wanted: &End, ending: &Ending) -> bool {
    match ending {
        Ending::Answered(faults, None) => matches!(wanted, End::Answered(n) if n == faults),
        Ending::Answered(faults, Some(noticed)) => match noticed.other_delim {
            None => matches!(wanted, End::Answered(n) if n == faults),
            Some(delim) => matches!(wanted, End::Hinted(byte) if *byte == delim),
        },
        Ending::Refused(fault) => {
            matches!(wanted, End::Refused(rule, at) if fault.rule == *rule && fault.index == *at)
        }
        Ending::ReadFault => matches!(wanted, End::ReadFault),
        Ending::FirstError(_, reject) => {
            matches!(wanted, End::FirstError(place) if is_at(place, reject))
        }
        Ending::Mismatch(mismatch) => is_mismatch(wanted, mismatch),
        Ending::WriteFault => matches!(wanted, End::WriteFault),
        Ending::NoMemory => false,
        Ending::TooLarge(limit) => matches!(wanted, End::TooLarge(n) if n == limit),
        Ending::TooManyFaults(bound) => matches!(wanted, End::TooManyFaults(n) if n == bound),
    }
}

fn is_mismatch(wanted: &End, mismatch: &Mismatch) -> bool {
    match (wanted, mismatch) {
        (End::NoColumn(wanted), Mismatch::NoColumn(name, _))
        | (End::OtherHeader(wanted), Mismatch::OtherHeader(name, _)) => name.as_slice() == *wanted,
        _ => false,
    }
}

/// Words, the outside, the exit status and the ending.
struct Case {
    words: &'static [&'static str],
    outside: Outside,
    code: u8,
    wanted: End,
}

/// Whether a run over such a source and sink ends so.
fn ends_over<R: Threads + Wait + Sync>(
    rt: &R,
    alloc: Global,
    source: &mut MemorySource,
    sink: &mut MemorySink,
    case: &Case,
) -> Result<bool, NoMemory> {
    let words = words_of(alloc, case.words)?;
    let taps = Vec::new(alloc);
    let ending = run_to_ending(rt, alloc, &words, source, sink, &OpenGate, taps);
    Ok(ending.code() == case.code && is_wanted(&case.wanted, &ending))
}

fn ends<R: Threads + Wait + Sync>(rt: &R, alloc: Global, case: &Case) -> Result<bool, NoMemory> {
    let run = Run {
        words: case.words,
        files: FILES,
        outside: case.outside,
        cut: None,
    };
    let mut source = run.source(alloc)?;
    let mut sink = run.sink(alloc)?;
    ends_over(rt, alloc, &mut source, &mut sink, case)
}

const CASES: &[Case] = &[
    Case {
        words: &[
            "batch",
            "fault,faults",
            "types=BIGINT,VARCHAR",
            "header=false",
            "ignore_errors=true",
        ],
        outside: ROOMY,
        code: 0,
        wanted: End::Answered(4),
    },
    Case {
        words: &["load", "ragged"],
        outside: ROOMY,
        code: 0,
        wanted: End::Hinted(b','),
    },
    Case {
        words: &["load", "sound", "rejects_limit=5"],
        outside: ROOMY,
        code: 1,
        wanted: End::Refused(WordRule::Conflict, 2),
    },
    Case {
        words: &["batch", "sound,absent"],
        outside: ROOMY,
        code: 2,
        wanted: End::ReadFault,
    },
    Case {
        words: &[
            "batch",
            "sound,short",
            "types=BIGINT,VARCHAR",
            "header=false",
        ],
        outside: ROOMY,
        code: 3,
        wanted: End::FirstError(Place {
            file_id: 1,
            line: 3,
            column: 2,
            kind: ErrorKind::MissingColumns,
            message: b"Expected Number of Columns: 2 Found: 1",
        }),
    },
    Case {
        words: &["load", "sound", "column_types=a:DATE"],
        outside: ROOMY,
        code: 4,
        wanted: End::NoColumn(b"a"),
    },
    Case {
        words: &["batch", "column,sound", "same_header=true"],
        outside: ROOMY,
        code: 4,
        wanted: End::OtherHeader(b"sound"),
    },
    // The text of a first error isn't told whole either.
    Case {
        words: &["load", "fault", "types=BIGINT,VARCHAR", "header=false"],
        outside: Outside { room: 7, ..ROOMY },
        code: 5,
        wanted: End::WriteFault,
    },
    Case {
        words: &["batch", "sound,faults", "max_input=8"],
        outside: ROOMY,
        code: 7,
        wanted: End::TooLarge(8),
    },
    Case {
        words: &[
            "load",
            "faults",
            "types=BIGINT,VARCHAR",
            "header=false",
            "ignore_errors=true",
            "max_errors=2",
        ],
        outside: ROOMY,
        code: 9,
        wanted: End::TooManyFaults(2),
    },
];

#[test]
fn each_run_has_its_ending(rt: HostRuntime) {
    for case in CASES {
        assert!(rt;
            matches!(ends(&rt, rt.alloc(), case), Ok(true)),
            "{}",
            case.code
        );
    }
}
