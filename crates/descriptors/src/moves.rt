// Moves of slots between two slices, and within one. The library's `copy_from_slice` and `rotate_left`
// serve no archive for C here (`octets::moves`).
ghost use Rattle.std.specs.Prelude.{◌≡◌, ◌+◌, ◌-◌, ◌≤◌, ◌++◌, length};
ghost use Rattle.octets.specs.Put.{put, cut};
ghost use Rattle.descriptors.specs.Room.{most_descriptors};

use super::MOST_DESCRIPTORS;

// The n elements of src from index from on, over those of dst from index to on.
pub(crate) fn copy(dst: &mut [u32], to: usize, src: &[u32], from: usize, n: usize)
    requires { (to + n ≤ length dst.old) × (from + n ≤ length src.now) }
    ensures { dst.new ≡ put dst.old to (cut from n src.now) }
{
    for i in 0..n {
        dst[to + i] = src[from + i];
    }
}

// The elements from at to mid and those from mid to end change places.
pub(crate) fn rotate(s: &mut [u32], at: usize, mid: usize, end: usize)
    requires { (at ≤ mid) × (mid ≤ end) × (end ≤ length s.old) × (length s.old ≤ most_descriptors) }
    ensures { s.new ≡ put s.old at (cut mid (end - mid) s.old ++ cut at (mid - at) s.old) }
{
    if at == mid {
        return;
    }
    if mid == end {
        return;
    }
    let mut spare = [0u32; MOST_DESCRIPTORS];
    copy(&mut spare, 0, s, at, mid - at);
    s.copy_within(mid..end, at);
    copy(s, at + (end - mid), &spare, 0, mid - at);
}
