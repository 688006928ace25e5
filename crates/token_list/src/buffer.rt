// Buffers of fixed length, on the stack.
ghost use Rattle.std.specs.Prelude.{◌≡◌, ℕ, length, get_or};

pub fn zeroed<const N: usize>() -> [u8; N]
    ensures len { length result ≡ N }
    ensures zero { (i : ℕ) → get_or result i 0 ≡ 0 }
{
    [0; N]
}
