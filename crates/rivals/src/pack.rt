// The codes of a column's candidates, from its words, and the pixels of which too little is known.
ghost use Rattle.std.specs.Prelude.{◌≡◌, cond, ◌+◌, ◌/◌, ◌%◌, ◌≤◌, leb, length, get_or};
ghost use Rattle.columns.specs.Line.{Written};
ghost use Rattle.rivals.specs.List.{Packed};

fn low_bit(w: u32) -> usize
    ensures { (result ≡ w % 2) × (result ≤ 1) }
{
    (w % 2) as usize
}

fn high_bit(w: u32) -> usize
    ensures { (result ≡ w / 2 % 2) × (result ≤ 1) }
{
    (w / 2 % 2) as usize
}

// The codes of the n pixels whose words have a polarity's bit, in order, without a branch; answers how many.
pub fn pack_line(n: usize, y: usize, w: &[u32; 780], codes: &mut [u32; 512]) -> usize
    requires n_bound { (n ≤ 254) × (y ≤ 520) }
    ensures { Packed n y w.now codes.new result }
{
    let mut m: usize = 0;
    for i in 0..n {
        let x = w[y + i + 1];
        codes[m] = i as u32;
        m += low_bit(x);
        codes[m] = i as u32 + 780;
        m += high_bit(x);
    }
    m
}

fn is_unsure(w: u32) -> u8
    ensures { result ≡ cond (leb 4 w) 1 0 }
{
    u8::from(4 <= w)
}

// 1 for each pixel whose word says that too little is known of it, else 0.
pub fn open_line(y: usize, w: &[u32; 780], keep: &mut [u8; 256])
    requires y_bound { y ≤ 520 }
    ensures { Written 0 keep.old keep.new 0 256 (λ i x. x ≡ cond (leb 4 (get_or w.now (y + i + 1) 0)) 1 0) }
{
    for i in 0..256 {
        keep[i] = is_unsure(w[y + i + 1]);
    }
}
