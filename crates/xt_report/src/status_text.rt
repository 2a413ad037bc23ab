//! Writing a text.
ghost use Rattle.xt_report.specs.Writes.{Writes};

use xt_io::{Refused, Sink, write_all};
use xt_map::Text;

/// Writes a text.
pub fn write_text<K: Sink>(text: &Text, sink: &mut K) -> Result<(), Refused>
    ensures { Writes result
        (K.told sink.old) (K.told sink.new) (K.faults sink.old) (K.faults sink.new)
        text.now }
{
    write_all(sink, text.as_slice())
}
