// Bytes compared.
#![tactic(auto)]

ghost use Rattle.std.specs.Prelude.{◌≡◌, length};
ghost use Rattle.alike.specs.Same.{same};

// Whether two slices of one length hold the same bytes.
pub fn is_same<'a>(a: &'a [u8], b: &'a [u8]) -> bool
    requires { length a.now ≡ length b.now }
    ensures { result ≡ same a.now b.now }
{
    a == b
}
