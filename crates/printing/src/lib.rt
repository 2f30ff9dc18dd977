// What the program `listing` prints: a listing's records as lines, or a refusal.
#![tactic(auto)]

ghost use Rattle.std.specs.Prelude.{◌≡◌, [], ◌∷◌, ◌+◌, ◌*◌, ◌≤◌, ◌++◌, length, take};
ghost use Rattle.io.specs.Counts.{IsPrefixLen};
ghost use Rattle.rules.specs.Statements.{present};
ghost use Rattle.rules.specs.Calls.{full_buffer};
ghost use Rattle.rules.specs.Decode.{nth};
ghost use Rattle.refusals.specs.Refusals.{numbers as values_of};
ghost use Rattle.records.specs.Marks.{letters_of};
ghost use Rattle.text.specs.Text.{numbers, Put};
ghost use Rattle.printing.specs.Holds.{Holds, Whole};
ghost use Rattle.printing.specs.Lines.{line, text_of, refusal_text, answered, printed, records_in};
ghost use Rattle.printing.specs.Shapes.{nths, Prints};

use reader::full_read;
use records::marks::{Mark, field_at};
use refusals::Refusal;
use text::Text;

// The i-th field behind a mark.
#[tactic(auto, using(records::proofs::Fields::field_nth))]
fn field(s: &[u8], i: usize) -> u32
    requires { 4 * i + 4 ≤ length s.now }
    ensures { result ≡ nth i s.now }
{
    field_at(s, 4 * i)
}

// The mark and the first n fields. Each by `field`, which VC and LD ask for one alone: chunks of 4 bytes would be a second way to read one.
fn put_fields(text: &mut Text, mark: Mark, s: &[u8], n: usize)
    requires { 4 * n ≤ length s.now }
    ensures { Put (letters_of mark ++ numbers (nths n s.now)) text.old text.new }
{
    text.put_all(&mark.letters());
    for i in 0..n {
        text.put_number(u64::from(field(s, i)));
    }
}

// The line of the record at the head of s, if one is there: the record's length.
fn put_record(text: &mut Text, s: &[u8]) -> Option<usize>
    ensures { Prints s.now text.old text.new result }
{
    let [a, b, rest @ ..] = s else {
        return None;
    };
    let mark = Mark::of(*a, *b)?;
    let n = mark.fields();
    if rest.len() < 4 * n {
        return None;
    }
    let size = match mark {
        Mark::VC => {
            put_fields(text, mark, rest, 2);
            text.put(b' ');
            text.put_signed(field(rest, 2));
            12
        }
        Mark::LD => {
            let count = field(rest, 2) as usize;
            if rest.len() - 12 < count {
                return None;
            }
            put_fields(text, mark, rest, 3);
            text.put_numbers(&rest[12..12 + count]);
            12 + count
        }
        _ => {
            put_fields(text, mark, rest, n);
            4 * n
        }
    };
    text.put(b'\n');
    Some(2 + size)
}

fn put_end(text: &mut Text, count: u64)
    ensures { Put (line "END" (count ∷ [])) text.old text.new }
{
    text.put_all(b"END");
    text.put_number(count);
    text.put(b'\n');
}

// The text of a listing in `out`, and its length: a line for each record that the bytes begin with, then `END` and their count.
fn listing_text(listing: &[u8], out: &mut [u8]) -> usize
    ensures holds { Holds (text_of (records_in 0 listing.now)) out.old out.new result }
    ensures listing_len_bound { length (text_of (records_in 0 listing.now)) ≤ 6 * length listing.now + 25 }
{
    let mut text = Text::new(out);
    let mut at = 0;
    let mut count: u64 = 0;
    // no `for`: a step is a record, whose size is known when it is put
    while let Some(size) = put_record(&mut text, &listing[at..]) {
        at += size;
        count += 1;
    }
    put_end(&mut text, count);
    text.at
}

// The text of a refusal in `out`, and its length.
fn refusal_text(r: &Refusal, out: &mut [u8]) -> usize
    ensures { Holds (refusal_text (values_of r.now)) out.old out.new result }
{
    let mut text = Text::new(out);
    text.put_all(b"REF");
    let first = r.registers.first();
    let second = r.registers.second();
    for value in [r.reason.number(), r.from, r.to, first, second] {
        text.put_number(u64::from(value));
    }
    text.put(b'\n');
    text.at
}

// The text of what the full read answers, and its length, with `listing` lent to that read. It is whole where `text` has 6 bytes for each
// of the listing's, and 109 more.
pub fn answer_text(source: &[u8], listing: &mut [u8], text: &mut [u8]) -> usize
    ensures within { IsPrefixLen result text.new }
    ensures text { Holds (answered source.now listing.old) text.old text.new result }
    ensures whole { 6 * length listing.old + 109 ≤ length text.old
        → result ≡ length (answered source.now listing.old) }
    ensures listing { listing.new ≡ full_buffer present source.now listing.old }
{
    match full_read(source, listing) {
        Ok(n) => listing_text(&listing[..n as usize], text),
        Err(r) => refusal_text(&r, text),
    }
}

// What the program `listing` prints of its input, of which n bytes were read: the text of the full read's answer, lent 65,536 bytes for the
// listing. The input has one byte more than a source may have: it is an array, with a length beside it, so that no caller can lend fewer
// bytes and have the listing of a source that was cut off printed. The text has room for every answer.
pub fn input_text(
    input: &[u8; 65537],
    n: usize,
    listing: &mut [u8; 65536],
    text: &mut [u8; 393325],
) -> usize
    ensures within { IsPrefixLen result text.new }
    ensures text { Whole (printed (take n input.now)) text.old text.new result }
    ensures listing { listing.new ≡ full_buffer present (take n input.now) listing.old }
{
    answer_text(&input[..n.min(65537)], listing, text)
}
