// The bytes of a label's field as an array.
ghost use Rattle.std.specs.Prelude.{◌≡◌, ◌+◌, ◌≤◌, length, take, drop};

// The N bytes from `at` on, as recorded.
pub(crate) fn label_at<const N: usize>(s: &[u8], at: usize) -> [u8; N]
    requires { at + N ≤ length s.now }
    ensures { result ≡ take N (drop at s.now) }
{
    let mut label = [0u8; N];
    label.copy_from_slice(&s[at..at + N]);
    label
}
