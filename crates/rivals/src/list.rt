// Lists of candidates' codes: thinned in place by a test, and what they raise.
ghost use Rattle.std.specs.Prelude.{◌≡◌, ℕ, true, false, cond, ◌%◌, ◌≤◌, length};
ghost use Rattle.rivals.specs.List.{Coded, Thinned, Raised};

// The codes that the test does not rule out, packed again without a branch; answers how many.
pub fn thin_codes<F: Fn(usize) -> bool>(codes: &mut [u32], is_out: F) -> usize
    requires coded { Coded codes.old (length codes.old) }
    requires callable { (e : ℕ) → e % 780 ≤ 253 → e ≤ 1033 → F.pre is_out e }
    ensures { Thinned (λ e. F.post is_out e true) codes.old (length codes.old) codes.new result }
{
    let mut m: usize = 0;
    for j in 0..codes.len() {
        let e = codes[j];
        codes[m] = e;
        m += usize::from(!is_out(e as usize));
    }
    m
}

fn raised(old: u8, test: bool) -> u8
    ensures { result ≡ cond test 1 old }
{
    if test { 1 } else { old }
}

// 1 for each pixel with a code that the test leaves.
pub fn raise_codes<F: Fn(usize) -> bool>(codes: &[u32], keep: &mut [u8; 256], is_left: F)
    requires coded { Coded codes.now (length codes.now) }
    requires callable { (e : ℕ) → e % 780 ≤ 253 → e ≤ 1033 → F.pre is_left e }
    ensures { Raised (λ e. F.post is_left e false) codes.now (length codes.now) keep.old keep.new }
{
    for code in codes {
        let e = *code as usize;
        keep[e % 780] = raised(keep[e % 780], is_left(e));
    }
}
