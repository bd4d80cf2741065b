// Reading into a slice.
ghost use Rattle.std.specs.Prelude.{◌≤◌, length, take};
ghost use Rattle.std.specs.Io.KnownBytes.{Consumes};
ghost use Rattle.rules.specs.Bytes.{Bytes};

use std::io::Read;

// Reads until the slice is full, the input ends or a read fails, and answers how many bytes it put at the start of the slice. A failed read
// is no error here: whoever has to know asks with one more read. On an empty slice it makes no call.
pub fn read_full<R: Read>(input: &mut R, space: &mut [u8]) -> usize
    ensures in_bounds { result ≤ length space.new }
    ensures bytes { Bytes space.new }
    ensures taken { Consumes (R.remaining input.old) (R.remaining input.new) (take result space.new) }
{
    // Counted by hand: each read says how far it came.
    let mut done = 0;
    while done < space.len() {
        let got = input.read(&mut space[done..]);
        match got {
            Ok(n) if n > 0 => done += n,
            _ => return done,
        }
    }
    done
}
