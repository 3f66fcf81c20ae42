// The bank of a tag, written from its record (document 01, "The bank"; document 02, C-13 and C-15): one stream of bits, in order. Each `put_`
// function adds its bits to what the writer has written.
ghost use Rattle.std.specs.Prelude.{◌++◌, ◌≤◌, ◌<◌, length, take, replicate};
ghost use Rattle.numeral.specs.Numeral.{Digits, spread};
ghost use Rattle.bits.specs.Streams.{Adds};
ghost use Rattle.rules.specs.Calls.{bank_room};
ghost use Rattle.rules.specs.ControlFields.{ControlFits};
ghost use Rattle.rules.specs.Coding.{binary, bank_of, EnoughWords};
ghost use Rattle.scheme.specs.Records.{HasTag, Writes};
ghost use Rattle.bank.specs.Writing.{Room, start_bits, Company, company_bits, Reference, reference_bits, Wide, Asset, asset_number, KeepsLast, last_bits, Keeps, packed, ZerosFit, zeros_to};

use super::eights;
use bits::{Stream, Writer};
use fields::control::size;
use rules::{Body, ControlFields, Last, MOST_CHARACTERS, Parts, Table};
use scheme::outlines::{Outline, about};
use scheme::record::Record;
use scheme::rows;
use tens::with_one;

// The filter, the partition value and the company prefix: 3 bits, 3, and 40 at most.
fn put_company(w: &mut Writer<'_>, tag: Record)
    requires { Room w.old 46 × Company tag }
    ensures { Adds w.old (company_bits tag) w.new }
{
    let p = rows::by_digits(tag.digits);
    let cell = rows::prefix(p);
    w.push(6, tag.filter * 8 + p as u64);
    w.push(cell.bits, tag.prefix);
}

// The reference of one of the tables A to D, or of cpi-96's own: 38 bits at most.
fn put_reference(w: &mut Writer<'_>, t: Table, tag: Record)
    requires { Room w.old 38 × Reference t tag }
    ensures { Adds w.old (reference_bits t tag) w.new }
{
    let cell = rows::reference(t, rows::by_digits(tag.digits));
    w.push(cell.bits, tag.reference);
}

// A number of 32 to 62 bits, more than a stream takes at once: its 32 low bits go by themselves.
fn put_wide(w: &mut Writer<'_>, width: usize, v: u64)
    requires { Room w.old 62 × Wide width v }
    ensures { Adds w.old (binary width v) w.new }
{
    w.push(width - 32, v >> 32);
    w.push(32, v % 0x100000000);
}

// The reference of table E: 42 to 62 bits.
fn put_asset(w: &mut Writer<'_>, tag: Record)
    requires { Room w.old 62 × Asset tag }
    ensures { Adds w.old (asset_number tag) w.new }
{
    let width = rows::asset(rows::by_digits(tag.digits));
    put_wide(w, width, tag.serial);
}

// Three integers of a, b and c bits, each 57 at most: as many as a stream takes at once.
fn put_integers(w: &mut Writer<'_>, tag: Record, a: usize, b: usize, c: usize)
    requires { Room w.old 171 × Keeps (Parts.Integers a b c) tag }
    ensures { Adds w.old (packed (Parts.Integers a b c) tag) w.new }
{
    w.push(a, tag.prefix);
    w.push(b, tag.reference);
    w.push(c, tag.serial);
}

// The first k characters, at most 20 of seven bits each. Where the string has fewer, the rest of them are zeros.
fn put_string(w: &mut Writer<'_>, characters: [u8; MOST_CHARACTERS], k: usize)
    requires { Room w.old 140 × Digits 128 characters × (k ≤ 20) }
    ensures { Adds w.old (spread 2 7 (take k characters)) w.new }
{
    for some in characters[..k].chunks(8) {
        w.push(7 * some.len(), eights::joined(some));
    }
}

// What follows a reference: an integer, a string or a numeric string.
fn put_last(w: &mut Writer<'_>, last: Last, tag: Record)
    requires { Room w.old 140 × KeepsLast last tag }
    ensures { Adds w.old (last_bits last tag) w.new }
{
    match last {
        Last::Integer(n) => w.push(n, tag.serial),
        Last::String(n) => {
            let characters = tag.characters;
            put_string(w, characters, n / 7);
        }
        Last::Numeric(n, _) => put_wide(w, n, with_one(tag.serial, tag.count)),
    }
}

// A partition table, and what follows its reference: 46 bits, 38, and the 140 of a string at most.
fn put_body(w: &mut Writer<'_>, body: Body, tag: Record)
    requires { Room w.old 224 × Keeps (Parts.F body) tag }
    ensures { Adds w.old (packed (Parts.F body) tag) w.new }
{
    put_company(w, tag);
    match body {
        Body::Then(t, l) => {
            put_reference(w, t, tag);
            put_last(w, l, tag);
        }
        Body::Zeros(t, _) => put_reference(w, t, tag),
        Body::E => put_asset(w, tag),
    }
}

// The control word, with the word count in its upper five bits, umi in the next and att in the lower eight; and the header.
fn put_start(w: &mut Writer<'_>, words: usize, header: u8, control: ControlFields)
    requires { Room w.old 24 × (words < 32) × ControlFits control }
    ensures { Adds w.old (start_bits words header control) w.new }
{
    let word = words * 2048 + control.umi as usize * 1024 + control.att as usize;
    w.push(16, word as u64);
    w.push(8, header as u64);
}

// The control word, the header and all parts. What parts there are is asked first, so that a scheme's numbers are known from there on.
fn put_parts(w: &mut Writer<'_>, words: usize, outline: Outline, tag: Record)
    requires { Room w.old 248 × (words < 32) × ControlFits tag.control × Keeps outline.parts tag }
    ensures { Adds w.old (start_bits words outline.header tag.control ++ packed outline.parts tag) w.new }
{
    let control = tag.control;
    let parts = outline.parts;
    match parts {
        Parts::F(body) => {
            put_start(w, words, outline.header, control);
            put_body(w, body, tag);
        }
        Parts::Integers(a, b, c) => {
            put_start(w, words, outline.header, control);
            put_integers(w, tag, a, b, c);
        }
    }
}

// Zeros up to byte n: the fill, table B's 24, and the words that the scheme doesn't need. One push writes up to seven bytes of them, more than a
// scheme's own words have; those left are whole bytes.
fn put_zeros(w: &mut Writer<'_>, n: usize)
    requires { ZerosFit w.old n }
    ensures { Adds w.old (replicate (zeros_to n w.old.stream) 0) w.new }
{
    let s = w.stream;
    if s.at == n {
        return;
    }
    w.push(8 * (n - s.at).min(7) - s.count, 0);
    let at = w.stream.at;
    bits::split(w.out, at, n - at, 0, 256);
    w.stream = Stream {
        at: n,
        bits: 0,
        count: 0,
    };
}

// Writes the bank of the tag in so many words from the output's start on, and returns its length.
pub fn write(tag: Record, words: usize, out: &mut [u8]) -> usize
    requires bank_room_in_bounds { bank_room ≤ length out.old }
    requires has_tag { HasTag tag }
    requires enough_words { EnoughWords words tag.scheme }
    ensures { Writes (bank_of words) tag out.old result out.new }
{
    let outline = about(tag.scheme);
    let mut w = Writer::new(out);
    put_parts(&mut w, words, outline, tag);
    let n = size(words);
    put_zeros(&mut w, n);
    n
}
