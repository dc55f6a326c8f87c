//! Writing whole texts.

ghost use Rattle.std.specs.Prelude.{◌≡◌, OnOk, OnErr, true};
ghost use Rattle.std.specs.Io.KnownBytes.{Appends};
ghost use Rattle.devices.specs.Devices.{AppendsPart};

use crate::device::{DeviceFault, Sink};

/// Writes all bytes and flushes. `DeviceFault` where the writer failed or took no byte: then a front of them was written.
pub fn write_all<K: Sink>(writer: &mut K, bytes: &[u8]) -> Result<(), DeviceFault>
    ensures bytes { OnOk result (Appends (K.contents writer.old) (K.contents writer.new) bytes.now) }
    ensures flushed { OnOk result (K.flushed writer.new ≡ true) }
    ensures mark { OnOk result (K.failed writer.new ≡ K.failed writer.old) }
    ensures part { OnErr result (AppendsPart (K.contents writer.old) (K.contents writer.new) bytes.now) }
    ensures failed { OnErr result (K.failed writer.new ≡ true) }
{
    let mut rest = bytes;
    while !rest.is_empty() {
        match writer.write_some(rest) {
            Err(_) | Ok(0) => return Err(DeviceFault),
            Ok(count) => rest = &rest[count..],
        }
    }
    writer.flush_all()
}
