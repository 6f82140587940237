// Sized records: all of a list's.
ghost use Rattle.std.specs.Prelude.{◌≡◌, ◌/◌, length};
ghost use Rattle.std.proofs.lemmas.List.Edits.{sets};
ghost use Rattle.join.specs.Forms.{width_of};
ghost use Rattle.join.specs.Join.{records_from, sized_all, Writable};

use crate::forms::{self, Form};
use tables::Set;

// All records of the list, sized, from the buffer's start on; answers how many.
pub fn put_all<F: Form>(set: Set, list: &[u8], out: &mut [u8]) -> usize
    requires { Writable F.is_old list.now (length out.old) }
    ensures { (result ≡ length list.now / width_of F.is_old)
        × (out.new ≡ sets out.old 0 (sized_all F.is_old set (records_from F.is_old list.now (length list.now / width_of F.is_old) 0))) }
{
    let count = forms::count_of::<F>(list.len());
    for i in 0..count {
        F::put_in(out, i, set, F::record_in(list, i));
    }
    count
}
