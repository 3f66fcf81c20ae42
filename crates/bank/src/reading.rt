// A bank to the record of its tag: the rules 9 to 19, in their order (document 01, "Numbers given, and when"). Each function goes on where
// the one before it stopped, with the same reader.
ghost use Rattle.std.specs.Prelude.{◌≡◌, ◌-◌, ◌<◌, ◌++◌, length, replicate};
ghost use Rattle.rules.specs.Schemes.{zero_bits, row_at};
ghost use Rattle.rules.specs.Answers.{taken};
ghost use Rattle.rules.specs.BankNumbers.{control_in, tag_of_bank};
ghost use Rattle.scheme.specs.Records.{reading_of};
ghost use Rattle.bank.specs.Reading.{Coded, Begun, header_end, prefix_end, shape_of, groups_at, GroupsLie, LastLies, ending_at};

use fields::bitreader::{BitReader, first_one};
use fields::control;
use fields::control::WORD_COUNT;
use rules::{Body, Last, MOST_CHARACTERS, Parts, Scheme};
use scheme::counts::CodeBit;
use scheme::outlines::{about, by_header};
use scheme::record::{Reading, Record};
use scheme::refusal::Rule;
use scheme::rows;
use scheme::rows::Cell;
use tens::{behind_one, power};

// The zero bits at the end of the code.
fn zeros(p: Parts) -> usize
    ensures { result ≡ zero_bits p }
{
    match p {
        Parts::F(Body::Zeros(_, n)) => n,
        _ => 0,
    }
}

// What stands behind the company prefix: the bits and digits of the reference, and the last part. A reference or a last part that a scheme does
// not have takes no bits.
#[derive(Drop)]
struct Shape {
    cell: Cell,
    last: Last,
}

fn shape_in(body: Body, row: usize) -> Shape
    requires { row < 7 }
    ensures { result ≡ shape_of body (row_at row) }
{
    match body {
        Body::Then(t, last) => Shape {
            cell: rows::reference(t, row),
            last,
        },
        Body::Zeros(t, _) => Shape {
            cell: rows::reference(t, row),
            last: Last::Integer(0),
        },
        Body::E => Shape {
            cell: Cell { bits: 0, digits: 0 },
            last: Last::Integer(rows::asset(row)),
        },
    }
}

// The next k groups of seven bits, zeros behind them. Eight are taken at once, as one number of 56 bits.
fn groups(mut reader: BitReader, k: usize) -> [u8; MOST_CHARACTERS]
    requires { GroupsLie reader.at.0 k (length reader.bank.now) }
    ensures { result ≡ groups_at reader.entry.bank.now reader.entry.at.0 k ++ replicate (20 - k) 0 }
{
    let mut groups = [0u8; MOST_CHARACTERS];
    for i in (0..k).step_by(8) {
        let n = (k - i).min(8);
        let next = reader.take(7 * n);
        bits::split(&mut groups, i, n, next, 128);
    }
    groups
}

// The last part of a tag: an integer, the digits of a numeric string or the characters of a string, in fixed memory, no heap.
#[derive(Drop)]
struct Ending {
    serial: u64,
    characters: [u8; MOST_CHARACTERS],
    count: usize,
}

// The last part at the reader's place. There is none where rule 19 refuses it.
fn last_part(mut reader: BitReader, last: Last) -> Option<Ending>
    requires { LastLies reader.at.0 last (length reader.bank.now) }
    ensures { result ≡ ending_at reader.entry.bank.now reader.entry.at.0 last }
{
    match last {
        Last::Integer(n) => Some(Ending {
            serial: reader.take(n),
            characters: [0; MOST_CHARACTERS],
            count: 0,
        }),
        Last::String(n) => {
            let characters = groups(reader, n / 7);
            let count = alphabet::count(&characters[..n / 7])?;
            Some(Ending {
                serial: 0,
                characters,
                count,
            })
        }
        Last::Numeric(n, most) => {
            let digits = behind_one(reader.take(n), most)?;
            Some(Ending {
                serial: digits.value,
                characters: [0; MOST_CHARACTERS],
                count: digits.count,
            })
        }
    }
}

// The parts of gid-96: three integers.
fn general(mut reader: BitReader, s: Scheme, a: usize, b: usize, c: usize) -> Reading
    requires { Coded reader.bank.now s (Parts.Integers a b c) × (reader.at.0 ≡ header_end) }
    ensures { result ≡ reading_of (tag_of_bank reader.entry.bank.now) }
{
    let prefix = reader.take(a);
    let reference = reader.take(b);
    let serial = reader.take(c);
    Ok(Record {
        scheme: s,
        control: control::fields(reader.bank),
        filter: 0,
        prefix,
        digits: 0,
        reference,
        serial,
        characters: [0; MOST_CHARACTERS],
        count: 0,
    })
}

// What is read up to the company prefix: the filter, the partition value, the digits of the prefix and its value.
#[derive(Drop)]
struct Company {
    filter: u64,
    row: usize,
    digits: usize,
    prefix: u64,
}

// What follows the company prefix: rules 18 and 19.
fn behind_prefix(mut reader: BitReader, s: Scheme, body: Body, company: Company) -> Reading
    requires { Begun reader.bank.now s body company × (reader.at.0 ≡ prefix_end reader.bank.now) }
    ensures { result ≡ reading_of (tag_of_bank reader.entry.bank.now) }
{
    let control = control::fields(reader.bank);
    let shape = shape_in(body, company.row);
    let at = reader.at;
    let reference = reader.take(shape.cell.bits);
    if power(shape.cell.digits) <= reference {
        return Err(Rule::ReferenceTooLarge.at_bit(at));
    }
    let behind = reader.at;
    let Ending {
        serial,
        characters,
        count,
    } = last_part(reader, shape.last).ok_or(Rule::String.at_bit(behind))?;
    Ok(Record {
        scheme: s,
        control,
        filter: company.filter,
        prefix: company.prefix,
        digits: company.digits,
        reference,
        serial,
        characters,
        count,
    })
}

// The parts of any other scheme, a filter and a partition table: rules 16 to 19.
fn partitioned(mut reader: BitReader, s: Scheme, body: Body) -> Reading
    requires { Coded reader.bank.now s (Parts.F body) × (reader.at.0 ≡ header_end) }
    ensures { result ≡ reading_of (tag_of_bank reader.entry.bank.now) }
{
    let filter = reader.take(3);
    let partition_at = reader.at;
    let row = reader.take(3) as usize;
    if row == 7 {
        return Err(Rule::Partition.at_bit(partition_at));
    }
    let cell = rows::prefix(row);
    let prefix_at = reader.at;
    let prefix = reader.take(cell.bits);
    if power(cell.digits) <= prefix {
        return Err(Rule::PrefixTooLarge.at_bit(prefix_at));
    }
    let company = Company {
        filter,
        row,
        digits: cell.digits,
        prefix,
    };
    behind_prefix(reader, s, body, company)
}

// The code: rules 13 to 15, and its parts.
fn coded(bank: &[u8], words: usize) -> Reading
    requires { control_in bank.now ≡ taken words }
    ensures { result ≡ reading_of (tag_of_bank bank.now) }
{
    let mut reader = BitReader::new(bank, CodeBit(0));
    let header = reader.take(8);
    let s = by_header(header as u8).ok_or(Rule::Header.at_bit(CodeBit(0)))?;
    let outline = about(s);
    if words < outline.words {
        return Err(Rule::WordCount.at(WORD_COUNT.0));
    }
    // all bits behind the parts must be 0: the 24, the fill, and the words that the scheme doesn't need
    let p = outline.parts;
    let end = 16 * words;
    let one = first_one(bank, CodeBit(outline.bits - zeros(p)), end);
    if one.0 < end {
        return Err(Rule::FillBits.at_bit(one));
    }
    match p {
        Parts::Integers(a, b, c) => general(reader, s, a, b, c),
        Parts::F(body) => partitioned(reader, s, body),
    }
}

// The bank: its control word, rules 9 to 12, and its code.
pub fn read(bank: &[u8]) -> Reading
    ensures { result ≡ reading_of (tag_of_bank bank.now) }
{
    let words = control::clean(bank)?;
    coded(bank, words)
}
