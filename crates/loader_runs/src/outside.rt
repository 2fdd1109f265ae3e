//! The outside of a run.

/// How a source and a sink in memory move bytes, and which of their calls fail, counted from 1.
#[derive(Clone, Copy)]
pub struct Outside {
    /// The most bytes that one read gives.
    pub source_piece: usize,
    pub failing_source_call: Option<u64>,
    /// The most bytes that one write takes.
    pub sink_piece: usize,
    pub failing_sink_call: Option<u64>,
    /// How many bytes the sink has room for.
    pub room: usize,
}

/// Sound, in pieces that cut most lines.
pub const IN_PIECES: Outside = Outside {
    source_piece: 10,
    failing_source_call: None,
    sink_piece: 8,
    failing_sink_call: None,
    room: 1000,
};

/// Sound, in as large pieces as the calls ask for.
pub const WHOLE: Outside = Outside {
    source_piece: usize::MAX,
    sink_piece: usize::MAX,
    ..IN_PIECES
};

/// The same with room for any text that isn't a large input's.
pub const ROOMY: Outside = Outside {
    room: 1_000_000,
    ..WHOLE
};
