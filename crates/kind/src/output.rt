ghost use Rattle.std.specs.Prelude.{◌≡◌, ◌+◌, ◌≤◌, ◌++◌, length, take, drop};

use crate::kind::Kind;

/// Writes a value at the offset `at`, and answers the offset behind it. All other bytes stay.
///
/// As with `Kind::write`, the caller has checked that there is room.
pub fn write_at<K: Kind>(v: K::Value, out: &mut [u8], at: usize) -> usize
    requires { at + K.Kind.meaning.width ≤ length out.old }
    ensures end { result ≡ at + K.Kind.meaning.width }
    ensures bytes { out.new ≡ take at out.old ++ (K.Kind.meaning.written v ++ drop result out.old) }
{
    let end = at + K::WIDTH;
    K::write(v, &mut out[at..end]);
    end
}
