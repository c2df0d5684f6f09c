// Copying octets into the middle of a buffer.
#![tactic(auto)]

ghost use Rattle.std.specs.Prelude.{◌≡◌, ◌+◌, ◌≤◌};
ghost use Rattle.laws.specs.Usual.{length};
ghost use Rattle.copying.specs.Pasted.{pasted};

// Copies all of source into target from octet `at` on.
pub fn copy_into(source: &[u8], target: &mut [u8], at: usize)
    requires { at + length source.now ≤ length target.old }
    ensures { target.new ≡ pasted target.old at source.now }
{
    target[at..at + source.len()].copy_from_slice(source);
}
