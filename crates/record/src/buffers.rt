// Bytes that are kept in a buffer for the next reading go to its front.
ghost use Rattle.std.specs.Prelude.{◌≡◌};
ghost use Rattle.record.specs.Put.{put};
ghost use Rattle.std.proofs.Math.Seq.{slice};

// Moves the bytes from `start` up to `end`, or up to the buffer's end, to the front; what lies past them keeps its place.
pub fn to_front(bytes: &mut [u8], start: usize, end: usize)
    ensures { bytes.new ≡ put 0 (slice start end bytes.old) bytes.old }
{
    let stop = end.min(bytes.len());
    if start < stop {
        bytes.copy_within(start..stop, 0);
    }
}
