// Texts that are written at once, with no memory.
ghost use Rattle.value_types.specs.Spelled.{IsSpelled};
ghost use Rattle.value_types.specs.ValueText.{value_text};
ghost use Rattle.text_pieces.specs.Writes.{Writes};

use csv_source::{Failed, Sink, write_all};
use value_types::{Value, put_value};

/// Writes bytes.
pub fn write_text<K: Sink>(sink: &mut K, text: &[u8]) -> Result<(), Failed>
    ensures { Writes (K.taken sink.old) (K.taken sink.new) (K.faults sink.old) (K.faults sink.new) result text.now }
{
    write_all(sink, text)
}

/// Writes the text of a value.
pub fn write_value<K: Sink>(sink: &mut K, value: &Value) -> Result<(), Failed>
    requires { IsSpelled value.now }
    ensures { Writes (K.taken sink.old) (K.taken sink.new) (K.faults sink.old) (K.faults sink.new) result (value_text value.now) }
{
    let mut room = [0u8; 32];
    let end = put_value(value, &mut room, 0);
    write_text(sink, &room[..end])
}
