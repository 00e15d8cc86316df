//! Parts of slices.
ghost use Rattle.std.specs.Prelude.{◌≡◌, ◌≤◌, drop, length, take};

// The first bytes, or all of them.
pub fn front(bytes: &[u8], most: usize) -> &[u8]
    ensures { result.now ≡ take most bytes.now }
{
    &bytes[..bytes.len().min(most)]
}

// What is behind the first bytes.
pub fn after(bytes: &[u8], start: usize) -> &[u8]
    requires { start ≤ length bytes.now }
    ensures { result.now ≡ drop start bytes.now }
{
    &bytes[start..]
}
