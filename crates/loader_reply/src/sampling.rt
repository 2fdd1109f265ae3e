// What is found in the sample of an input.
ghost use Rattle.std.specs.Prelude.{IfOk};
ghost use Rattle.load_options.specs.Accepted.{IsAccepted};
ghost use Rattle.range_scan.specs.Scanned.{HasColumns};
ghost use Rattle.loader_reply.specs.Loading.{IsFinding};
ghost use Rattle.loader_reply.specs.Reading.{schema_of};

use csv_sniffer::{Finding, sniff_input};
use csv_source::NoMemory;
use load_options::Options;
use std::alloc::Global;

/// Looks at the sample of an input's first bytes.
pub fn sniff_bytes(alloc: Global, options: &Options, bytes: &[u8]) -> Result<Finding, NoMemory>
    requires within { IsAccepted options.now }
    ensures ok { IfOk result (IsFinding options.now bytes.now) }
    ensures columns { IfOk result (λ finding. HasColumns (schema_of options.now finding.sniffed)) }
{
    sniff_input(alloc, options, bytes)
}
