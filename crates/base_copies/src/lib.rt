// Bytes put into a lent buffer.
#![tactic(auto)]

ghost use Rattle.std.specs.Prelude.{◌≡◌, ◌++◌, ◌+◌, ◌≤◌, length, take, drop};

// All of s goes to d, from byte `at` on.
pub fn copy_in(d: &mut [u8], at: usize, s: &[u8])
    requires { at + length s.now ≤ length d.old }
    ensures { d.new ≡ take at d.old ++ s.now ++ drop (at + length s.now) d.old }
{
    d[at..at + s.len()].copy_from_slice(s);
}
