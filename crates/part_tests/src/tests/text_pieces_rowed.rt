//! Texts of rows, whose lines are made in rounds.
use csv_source::{Failed, MemorySink, NoMemory, Sink};
use std::alloc::Global;
use std::process::Abort;
use std::thread::Threads;
use text_pieces::{Draft, RowLines, RowedText, Workers, write_text};

/// Rows of a byte each, whose line is that byte alone.
#[derive(Drop)]
pub struct Letters {
    letters: Vec<u8>,
    // So many bytes a line is told to take: where they are many, a block has few rows.
    room: usize,
    // Whether no memory is had for lines.
    refused: bool,
}

impl RowLines for Letters {
    ghost use Rattle.std.specs.Prelude.{◌∷◌, [], map};

    ghost lines = { λ rows. map (λ letter. letter ∷ []) rows.letters.items };

    fn count(&self) -> usize {
        self.letters.len()
    }

    fn room(&self, rows: usize) -> usize {
        self.room.saturating_mul(rows)
    }

    fn append(&self, from: usize, to: usize, into: &mut Draft) -> Result<(), NoMemory> {
        if self.refused {
            return Err(NoMemory);
        }
        into.append(&self.letters[from..to])
    }

    fn write_line<K: Sink>(&self, row: usize, sink: &mut K) -> Result<(), Failed> {
        write_text(sink, &self.letters[row..row + 1])
    }
}

/// A line of this room has a block to itself, and few lines are no short text.
const MUCH: usize = 3 << 20;

/// The lines of the first letters behind a head, and before a tail.
fn text_of<R>(
    workers: &Workers<'_, R>,
    letters: &[u8],
    room: usize,
    refused: bool,
) -> Result<RowedText<Letters>, NoMemory> {
    let rows = Letters {
        letters: letters.to_vec(workers.alloc)?,
        room,
        refused,
    };
    let head = b"<".to_vec(workers.alloc)?;
    RowedText::new(workers, head, rows, b">".to_vec(workers.alloc)?)
}

/// Letters between a head and a tail: none up to seven, and more than one round has.
const TEXTS: [&[u8]; 7] = [
    b"<>",
    b"<a>",
    b"<ab>",
    b"<abcde>",
    b"<abcdefg>",
    b"<abcdefghijk>",
    b"<abcdefghijklmnopqrstuvwxyz>",
];

/// How many bytes a sink takes of a text before a call that fails, and whether all are taken; nothing where they are others.
fn taken<R: Threads + Sync + Abort>(
    workers: &Workers<'_, R>,
    text: RowedText<Letters>,
    want: &[u8],
    failing: u64,
) -> Option<(usize, bool)> {
    let mut sink = MemorySink::with_room(workers.alloc, want.len()).expect(workers.rt, "memory");
    sink.fail_call(failing).expect(workers.rt, "memory");
    let all = text.write(workers.rt, &mut sink).is_ok();
    let front = want.starts_with(sink.taken()) && all == (sink.taken() == want);
    if front {
        Some((sink.taken().len(), all))
    } else {
        None
    }
}

/// What a sink takes of a text whose lines have this room, up to a call that fails.
fn taken_of<R: Threads + Sync + Abort>(
    workers: &Workers<'_, R>,
    want: &[u8],
    lines: (usize, bool),
    failing: u64,
) -> Option<(usize, bool)> {
    if want.len() < 2 {
        return None;
    }
    match text_of(workers, &want[1..want.len() - 1], lines.0, lines.1) {
        Ok(text) => taken(workers, text, want, failing),
        Err(NoMemory) => None,
    }
}

/// A call that no text here comes to.
const NO_CALL: u64 = 1_000;

/// Whether texts are written whole, whatever room a line is told to take.
fn are_written<R: Threads + Sync + Abort>(workers: &Workers<'_, R>) -> bool {
    for want in TEXTS {
        for room in [0, 1, 40_000, MUCH] {
            if taken_of(workers, want, (room, false), NO_CALL) != Some((want.len(), true)) {
                return false;
            }
        }
    }
    true
}

/// Whether texts of some rows are written whole where their lines find no memory.
fn are_written_straight<R: Threads + Sync + Abort>(workers: &Workers<'_, R>) -> bool {
    for want in TEXTS {
        let whole = taken_of(workers, want, (MUCH, true), NO_CALL) == Some((want.len(), true));
        if !whole && want.len() > 2 {
            return false;
        }
    }
    true
}

#[test]
fn rows_are_written_in_order_whatever_the_blocks(rt: HostRuntime) {
    for threads in [0u32, 1, 2, 4] {
        let workers = Workers {
            rt: &rt,
            alloc: rt.alloc(),
            threads,
        };
        assert!(rt; are_written(&workers) && are_written_straight(&workers));
    }
}

#[test]
fn few_rows_want_their_memory_before_the_first_byte(rt: HostRuntime) {
    let workers = Workers {
        rt: &rt,
        alloc: rt.alloc(),
        threads: 2,
    };
    assert!(rt; text_of(&workers, b"abc", 1, true).is_err());
    assert!(rt; text_of(&workers, b"abc", MUCH, true).is_ok());
}

/// Whether each write that fails leaves a front of a text, the first nothing, and none less than one before it.
fn leave_fronts<R: Threads + Sync + Abort>(workers: &Workers<'_, R>, refused: bool) -> bool {
    let mut before = 0;
    for failing in 1..40u64 {
        let Some((count, _)) = taken_of(workers, TEXTS[6], (MUCH, refused), failing) else {
            return false;
        };
        if count < before || (failing == 1) != (count == 0) {
            return false;
        }
        before = count;
    }
    before == TEXTS[6].len()
}

#[test]
fn a_write_that_fails_leaves_those_before(rt: HostRuntime) {
    let workers = Workers {
        rt: &rt,
        alloc: rt.alloc(),
        threads: 2,
    };
    assert!(rt; leave_fronts(&workers, false) && leave_fronts(&workers, true));
}

#[test]
fn a_short_text_is_one_write(rt: HostRuntime) {
    let workers = Workers {
        rt: &rt,
        alloc: rt.alloc(),
        threads: 4,
    };
    assert!(rt; taken_of(&workers, TEXTS[4], (2, false), 2) == Some((TEXTS[4].len(), true)));
}
