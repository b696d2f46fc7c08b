ghost use Rattle.shen_base.specs.Sending.{Writes, outlet};

use crate::Sink;

/// The sink counted a fault, and only the front of a text was written.
#[derive(Clone, Copy)]
pub struct WriteFault;

/// Writes `text` to the sink, in as many pieces as the sink makes of it: at most one call per byte, since each call takes
/// a byte or is the last. After `WriteFault` a front of the text was written.
pub fn write_all<K: Sink>(sink: &mut K, text: &[u8]) -> Result<(), WriteFault>
    ensures { Writes result (outlet (K.written sink.old) (K.faults sink.old) (K.calls sink.old))
        (outlet (K.written sink.new) (K.faults sink.new) (K.calls sink.new)) text.now }
{
    let mut rest = text;
    while !rest.is_empty() {
        match sink.write(rest) {
            Ok(count) => rest = &rest[count..],
            Err(_) => return Err(WriteFault),
        }
    }
    Ok(())
}
