// What the forms in memory share: a piece of bytes, and the list of the calls that are to fail.
ghost use Rattle.std.specs.Prelude.{◌≡◌, ◌<◌, ◌≤◌, ◌↔◌, length, take, min, IsTrue, Contains};

/// Copies a prefix of `rest` to the start of `buf`: as many bytes as both have, and at most
/// `most`.
pub(crate) fn copy_front(rest: &[u8], buf: &mut [u8], most: usize) -> usize
    requires rest { 0 < length rest.now }
    requires buf { 0 < length buf.old }
    requires most { 1 ≤ most }
    ensures count { result ≡ min most (min (length buf.old) (length rest.now)) }
    ensures some { 0 < result }
    ensures fits { result ≤ length buf.new }
    ensures copied { take result buf.new ≡ take result rest.now }
{
    let count = most.min(buf.len().min(rest.len()));
    buf[..count].copy_from_slice(&rest[..count]);
    count
}

/// Whether the call of that number is to fail.
pub(crate) fn is_listed(failing: &[u64], call: u64) -> bool
    ensures { IsTrue result ↔ Contains failing.now call }
{
    failing.contains(&call)
}
