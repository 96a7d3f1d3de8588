// Document 01's example 11: reads a file from standard input and prints its crop or its refusal.
//
// No contract can say what the operating system reads or writes. So what reads and what writes goes by any reader and any writer.
// `write_piece` alone writes, and its `requires` says which bytes it is handed: those that `listing_of` of the file has behind the
// bytes counted so far, and counts them where the write went well. Nothing else writes, and nothing else counts. `list` promises
// that the count does not pass the listing's end, and is at its end where no write has failed. Of a writer whose bytes are known, as
// one over memory, it promises too that they have then grown by exactly the listing; and `read_file` that a reader's known bytes are
// read up to the room for them.
#![tactic(auto)]

ghost use Rattle.std.specs.Prelude.{◌≡◌, not, cond, ◌∷◌, ◌++◌, ◌+◌, ◌*◌, ◌≤◌, ◌<◌, T, length, take, IfOk, OnOk};
ghost use Rattle.std.specs.Io.{ReadsAtMost};
ghost use Rattle.std.specs.Io.KnownBytes.{Appends, Consumes, IsAtEnd};
ghost use Rattle.std.specs.Result.{is_ok};
ghost use Rattle.std.specs.Float.Ieee.{is_nan};
ghost use Rattle.directory.specs.Refusal.{number_of, detail_of};
ghost use Rattle.rows.specs.Facts.Part.{AllInUnit, SizedIn};
ghost use Rattle.listing.specs.Text.{decimal_of, value_text, values_text, refused_text, frame_text, crop_size, listing_of};
ghost use Rattle.listing.specs.Facts.Body.{Puts, LinesIn, lines_text, ListedIs, Ready, BlockIn, rows_from};
ghost use Rattle.listing.specs.Pieces.{Stands, Remains, Ends};

use develop::{View, window};
use directory::refusal::Refusal;
use opcodes::grid::Size;
use raw::front::Picture;
use std::io::{Read, Write};

// Puts a word behind the first `at` bytes of a text, and answers where it ends. A text is a lent buffer with its end beside it: no heap.
fn put(text: &mut [u8], at: usize, word: &[u8]) -> usize
    requires { at + length word.now ≤ length text.old }
    ensures { Puts text.old at word.now text.new result }
{
    let end = at + word.len();
    text[at..end].copy_from_slice(word);
    end
}

// A space and a number.
fn put_number(text: &mut [u8], at: usize, n: usize) -> usize
    requires { at + 21 ≤ length text.old }
    ensures puts { Puts text.old at (32 ∷ decimal_of n) text.new result }
    ensures upper_bound { result ≤ at + 21 }
{
    let mut digits = [0u8; 20];
    let k = io::decimal(n as u64, &mut digits);
    let end = put(text, at, b" ");
    put(text, end, &digits[..k])
}

fn put_value(text: &mut [u8], at: usize, x: f64) -> usize
    requires { (at + 16 ≤ length text.old) × T (not (is_nan x)) }
    ensures { Puts text.old at (value_text x) text.new result }
{
    let mut digits = [0u8; 16];
    let k = io::hex(f64::to_bits(x), 16, &mut digits);
    put(text, at, &digits[..k])
}

// A line of values.
fn put_line(text: &mut [u8], at: usize, values: &[f64]) -> usize
    requires { (1 ≤ length values.now) × (at + 17 * length values.now ≤ length text.old) × AllInUnit values.now }
    ensures { Puts text.old at (values_text values.now) text.new result }
{
    let mut end = put_value(text, at, values[0]);
    for value in &values[1..] {
        let next = put(text, end, b" ");
        end = put_value(text, next, *value);
    }
    put(text, end, b"\n")
}

// So many lines of so many values.
fn put_lines(text: &mut [u8], values: &[f64], height: usize, width: usize) -> usize
    requires { LinesIn width height values.now text.old }
    ensures { (result ≤ length text.new) × (take result text.new ≡ lines_text width height values.now) }
{
    let mut end = 0;
    for i in 0..height {
        let a = i * width;
        end = put_line(text, end, &values[a..a + width]);
    }
    end
}

// The whole text of a refused file.
fn put_refusal(text: &mut [u8], refusal: Refusal) -> usize
    requires { 128 ≤ length text.old }
    ensures { (result ≤ length text.new) × (take result text.new ≡ refused_text (number_of refusal) (detail_of refusal)) }
{
    let a = put(text, 0, b"refused");
    let b = put_number(text, a, refusal.number());
    let c = put_number(text, b, refusal.detail());
    put(text, c, b"\n")
}

// The first line of an accepted file.
fn put_size(text: &mut [u8], size: Size) -> usize
    requires { 128 ≤ length text.old }
    ensures { (result ≤ length text.new) × (take result text.new ≡ frame_text size) }
{
    let a = put(text, 0, b"frame");
    let b = put_number(text, a, size.rows);
    let c = put_number(text, b, size.columns);
    let d = put_number(text, c, size.samples);
    put(text, d, b"\n")
}

// The file as it was opened: one of over 65,536 bytes counts as refusal 1.
fn opened(file: &[u8]) -> Result<View, Refusal>
    ensures { ListedIs file.now result }
{
    if file.len() > 65536 {
        return Err(Refusal::FileSize);
    }
    develop::open(file)
}

// How many rows the block has that begins at the crop's row `top`: as many as fit.
fn block(picture: Picture, top: usize) -> usize
    requires { SizedIn (crop_size picture) × (1 ≤ (crop_size picture).columns) × (top < (crop_size picture).rows) }
    ensures { BlockIn (crop_size picture) top result }
{
    let tags = picture.raw.tags;
    let most = 49152 / (tags.crop.columns * tags.frame.samples);
    most.min(tags.crop.rows - top)
}

// The lines of `height` rows from the crop's row `top` on: with the lines of the rows after them, they are the lines of all rows
// from `top` on.
fn put_rows(
    text: &mut [u8],
    values: &mut [f64],
    file: &[u8],
    view: View,
    top: usize,
    height: usize,
) -> usize
    requires ready { Ready file.now view text.old values.old }
    requires block_in { BlockIn (crop_size view.picture) top height }
    ensures upper_bound { result ≤ length text.new }
    ensures height_after { take result text.new ++ rows_from file.now (top + height) ≡ rows_from file.now top }
{
    let tags = view.picture.raw.tags;
    let crop = tags.crop;
    let width = crop.columns * tags.frame.samples;
    let m = height * width;
    let first = crop.top + top;
    let _ = window::opened_window(
        file,
        view,
        first,
        crop.left,
        height,
        crop.columns,
        &mut values[..m],
    );
    put_lines(text, &values[..m], height, width)
}

// Writes the next piece of the file's listing, what it has behind the first `written` bytes, and counts it to those. Nothing else
// writes or counts.
fn write_piece<W: Write>(
    out: &mut W,
    file: &[u8],
    written: &mut usize,
    piece: &[u8],
) -> std::io::Result<()>
    requires stands { Stands file.now written.old piece.now }
    requires file_len_bound { length (listing_of file.now) < 18446744073709551616 }
    ensures counted { written.new ≡ cond (is_ok result) (written.old + length piece.now) written.old }
    ensures given { OnOk result (Appends (W.contents out.old) (W.contents out.new) piece.now) }
{
    let end = *written + piece.len();
    out.write_all(piece)?;
    *written = end;
    Ok(())
}

// Writes the rows, a block at a time. A write that fails ends the listing.
fn print_rows<W: Write>(
    out: &mut W,
    text: &mut [u8],
    values: &mut [f64],
    file: &[u8],
    view: View,
    written: &mut usize,
) -> std::io::Result<()>
    requires ready { Ready file.now view text.old values.old }
    requires remains { Remains file.now written.old (rows_from file.now 0) }
    ensures ends { Ends file.now written.new (is_ok result) }
    ensures given { OnOk result (Appends (W.contents out.old) (W.contents out.new) (rows_from file.now 0)) }
{
    let picture = view.picture;
    let rows = picture.raw.tags.crop.rows;
    let mut top = 0;
    // no range: how far the next block begins is what `block` answers
    while top < rows {
        let height = block(picture, top);
        let n = put_rows(text, values, file, view, top, height);
        write_piece(out, file, written, &text[..n])?;
        top += height;
    }
    Ok(())
}

// A block's values: at least one row of the widest frame, 16,384 columns of three samples.
fn value_space() -> [f64; 49152]
    ensures { 49152 ≡ length result }
{
    [0.0; 49152]
}

// A block's text, 17 bytes to a value.
fn text_space() -> [u8; 835584]
    ensures { 835584 ≡ length result }
{
    [0; 835584]
}

// A file, and one byte more than is listed.
fn file_space() -> [u8; 65537]
    ensures { 65537 ≡ length result }
{
    [0; 65537]
}

// Writes a file's listing, and answers whether all of it is written.
fn list<W: Write>(out: &mut W, file: &[u8], written: &mut usize) -> std::io::Result<()>
    requires { written.old ≡ 0 }
    ensures ends { Ends file.now written.new (is_ok result) }
    ensures given { OnOk result (Appends (W.contents out.old) (W.contents out.new) (listing_of file.now)) }
{
    let mut values = value_space();
    let mut text = text_space();
    match opened(file) {
        Err(refusal) => {
            let n = put_refusal(&mut text, refusal);
            write_piece(out, file, written, &text[..n])
        }
        Ok(view) => {
            let tags = view.picture.raw.tags;
            let size = Size {
                rows: tags.crop.rows,
                columns: tags.crop.columns,
                samples: tags.frame.samples,
            };
            let n = put_size(&mut text, size);
            write_piece(out, file, written, &text[..n])?;
            print_rows(out, &mut text, &mut values, file, view, written)
        }
    }
}

// Reads a file until the room for it is full or the input ends, and answers how long it is.
fn read_file<R: Read>(input: &mut R, file: &mut [u8]) -> std::io::Result<usize>
    ensures inside { ReadsAtMost result file.new }
    ensures bytes { IfOk result (λ n. Consumes (R.remaining input.old) (R.remaining input.new) (take n file.new)) }
    ensures end { IfOk result (λ n. n < length file.new → IsAtEnd (R.remaining input.new)) }
{
    let mut n = 0;
    // std's methods that read up to the end fill a Vec; this fills the room it is lent
    while n < file.len() {
        let more = input.read(&mut file[n..])?;
        if more == 0 {
            break;
        }
        n += more;
    }
    Ok(n)
}

fn main(rt: HostRuntime) -> std::io::Result<()> {
    let mut file = file_space();
    let mut input = rt.stdin();
    let n = read_file(&mut input, &mut file)?;
    let mut out = rt.stdout();
    let mut written = 0;
    list(&mut out, &file[..n], &mut written)
}
