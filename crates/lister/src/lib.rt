// The list program's work on bytes: from its input to its output.
#![tactic(auto)]

ghost use Rattle.std.specs.Prelude.{Ok, ◌≡◌, min, length, take, IfOk, IfSome, OnOk};
ghost use Rattle.std.specs.Io.{ReadsAtMost};
ghost use Rattle.std.specs.Io.KnownBytes.{Appends};
ghost use Rattle.io.specs.Counts.{IsPrefixLen};
ghost use Rattle.tables.specs.Refusal.{first_of};
ghost use Rattle.detect.specs.Detect.{outcome};
ghost use Rattle.input.specs.Input.{list_checks};
ghost use Rattle.lister.specs.Detect.{detect_from};
ghost use Rattle.lister.specs.Output.{most_shown, tile_output, list_output, Begins};

use std::io;
use std::io::{Read, Write};
use tables::Refusal;

// How many bytes of the input are read: one more than the longest tile's.
const INPUT: usize = 58161;

// How many records are printed at most.
const MOST_SHOWN: usize = 1300;

// The bytes of so many records.
const SHOWN_BYTES: usize = 62400;

// Room for so many lines and the count's.
const OUTPUT: usize = 126140;

// How many of the records found are printed: the first ones.
fn shown(count: usize) -> usize
    ensures { result ≡ min most_shown count }
{
    if count < MOST_SHOWN {
        count
    } else {
        MOST_SHOWN
    }
}

// Detects what the input holds, with its list in the buffer out.
fn detect_from(input: &[u8], out: &mut [u8]) -> Result<usize, Refusal>
    requires { first_of (list_checks input.now) ≡ Ok tt }
    ensures { outcome result out.new ≡ detect_from input.now out.old }
{
    let rows = input::count_from(input, 548);
    let cols = input::count_from(input, 552);
    let octave = input::count_from(input, 556);
    let n = input::area_from(input);
    let l0 = input::level_from(input, 0);
    let l1 = input::level_from(input, 1);
    let l2 = input::level_from(input, 2);
    let l3 = input::level_from(input, 3);
    let set = input::set_from(input);
    let thresholds = input::thresholds_from(input);
    alp::detect(
        set,
        thresholds,
        rows,
        cols,
        octave,
        &l0[..n],
        &l1[..n],
        &l2[..n],
        &l3[..n],
        out,
    )
}

// What a tile of the right length prints.
fn list_tile(input: &[u8], out: &mut [u8; OUTPUT]) -> usize
    requires { first_of (list_checks input.now) ≡ Ok tt }
    ensures { Begins out.new result (tile_output input.now) }
{
    let mut records = [0u8; SHOWN_BYTES];
    let answer = detect_from(input, &mut records);
    match answer {
        Ok(count) => {
            let printed = shown(count);
            let end = text::put_lines(out, 0, &records, printed);
            text::put_found(out, end, count)
        }
        Err(why) => text::put_refused(out, 0, u32::from(why) as usize),
    }
}

// Puts the output for the input at the start of out, and answers its length.
pub fn list(input: &[u8], out: &mut [u8; OUTPUT]) -> usize
    ensures begins { Begins out.new result (list_output input.now) }
    ensures prefix_len { IsPrefixLen result out.new }
{
    let check = input::checked(input);
    match check {
        Err(why) => text::put_refused(out, 0, u32::from(why) as usize),
        Ok(()) => list_tile(input, out),
    }
}

// Reads until the buffer is full or the reader ends, and answers how many bytes it put at the buffer's start.
fn read_full<R: Read>(from: &mut R, buf: &mut [u8]) -> io::Result<usize>
    ensures in_bounds { ReadsAtMost result buf.new }
    ensures bytes { IfOk result (λ n. IfSome (R.remaining from.old) (λ xs. take n buf.new ≡ take (length buf.old) xs)) }
{
    let mut done = 0;
    // Stays: the reader says how many bytes a turn reads; no range counts that.
    while done < buf.len() {
        let n = from.read(&mut buf[done..])?;
        if n == 0 {
            break;
        }
        done += n;
    }
    Ok(done)
}

// Writes the output for what the reader gives, of which one byte more than the longest tile's is read. A read or a write that fails ends it.
pub fn run<R: Read, W: Write>(from: &mut R, to: &mut W) -> io::Result<()>
    ensures { OnOk result (IfSome (R.remaining from.old) (λ xs. Appends (W.contents to.old) (W.contents to.new) (list_output xs))) }
{
    let mut input = [0u8; INPUT];
    let n = read_full(from, &mut input)?;
    let mut out = [0u8; OUTPUT];
    let r = list(&input[..n], &mut out);
    to.write_all(&out[..r])
}
