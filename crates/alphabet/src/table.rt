// The class of each byte: whether it is a character, and how a text spells it (document 01, "The text of a tag": String).

use Class::{Escaped, Outside, Plain};

// Outside table A-1, a character that stands for itself, or one of the seven that are escaped.
#[derive(Clone, Copy, PartialEq, Eq)]
pub enum Class {
    Outside,
    Plain,
    Escaped,
}

// An entry for each byte value.
pub static CLASSES: [Class; 256] = [
    Outside, Outside, Outside, Outside, Outside, Outside, Outside, Outside, Outside, Outside,
    Outside, Outside, Outside, Outside, Outside, Outside, Outside, Outside, Outside, Outside,
    Outside, Outside, Outside, Outside, Outside, Outside, Outside, Outside, Outside, Outside,
    Outside, Outside, Outside, Plain, // !
    Escaped, // "
    Outside, Outside, Escaped, // %
    Escaped, // &
    Plain, // '
    Plain, // (
    Plain, // )
    Plain, // *
    Plain, // +
    Plain, // ,
    Plain, // -
    Plain, // .
    Escaped, // /
    Plain, // 0
    Plain, // 1
    Plain, // 2
    Plain, // 3
    Plain, // 4
    Plain, // 5
    Plain, // 6
    Plain, // 7
    Plain, // 8
    Plain, // 9
    Plain, // :
    Plain, // ;
    Escaped, // <
    Plain, // =
    Escaped, // >
    Escaped, // ?
    Outside, Plain, // A
    Plain, // B
    Plain, // C
    Plain, // D
    Plain, // E
    Plain, // F
    Plain, // G
    Plain, // H
    Plain, // I
    Plain, // J
    Plain, // K
    Plain, // L
    Plain, // M
    Plain, // N
    Plain, // O
    Plain, // P
    Plain, // Q
    Plain, // R
    Plain, // S
    Plain, // T
    Plain, // U
    Plain, // V
    Plain, // W
    Plain, // X
    Plain, // Y
    Plain, // Z
    Outside, Outside, Outside, Outside, Plain, // _
    Outside, Plain, // a
    Plain, // b
    Plain, // c
    Plain, // d
    Plain, // e
    Plain, // f
    Plain, // g
    Plain, // h
    Plain, // i
    Plain, // j
    Plain, // k
    Plain, // l
    Plain, // m
    Plain, // n
    Plain, // o
    Plain, // p
    Plain, // q
    Plain, // r
    Plain, // s
    Plain, // t
    Plain, // u
    Plain, // v
    Plain, // w
    Plain, // x
    Plain, // y
    Plain, // z
    Outside, Outside, Outside, Outside, Outside, Outside, Outside, Outside, Outside, Outside,
    Outside, Outside, Outside, Outside, Outside, Outside, Outside, Outside, Outside, Outside,
    Outside, Outside, Outside, Outside, Outside, Outside, Outside, Outside, Outside, Outside,
    Outside, Outside, Outside, Outside, Outside, Outside, Outside, Outside, Outside, Outside,
    Outside, Outside, Outside, Outside, Outside, Outside, Outside, Outside, Outside, Outside,
    Outside, Outside, Outside, Outside, Outside, Outside, Outside, Outside, Outside, Outside,
    Outside, Outside, Outside, Outside, Outside, Outside, Outside, Outside, Outside, Outside,
    Outside, Outside, Outside, Outside, Outside, Outside, Outside, Outside, Outside, Outside,
    Outside, Outside, Outside, Outside, Outside, Outside, Outside, Outside, Outside, Outside,
    Outside, Outside, Outside, Outside, Outside, Outside, Outside, Outside, Outside, Outside,
    Outside, Outside, Outside, Outside, Outside, Outside, Outside, Outside, Outside, Outside,
    Outside, Outside, Outside, Outside, Outside, Outside, Outside, Outside, Outside, Outside,
    Outside, Outside, Outside, Outside, Outside, Outside, Outside, Outside, Outside, Outside,
    Outside, Outside, Outside,
];
