//! Where in a head bytes end, told byte by byte: so a head that comes in many pieces is not read again for each.
ghost use Rattle.std.specs.Prelude.{◌≡◌, ◌==◌, if◌then◌else◌};
ghost use Rattle.std.specs.Char.{is_ascii_digit};
ghost use Rattle.gd_frame.specs.Spots.{line_after, first_after, behind_version, target_after, character_after, spot_after, spot_of, is_known};

use crate::message::Kind;
use httparse::{is_header_name_token, is_header_value_token, is_method_token, is_uri_token};

/// Where in a head bytes end.
#[derive(Clone, Copy, Debug, PartialEq, Eq)]
pub(crate) enum Spot {
    /// In the empty lines before the first line.
    Empty,
    /// After a CR among them.
    EmptyReturn,
    Method,
    TargetStart,
    /// Between characters of a target.
    Target,
    /// Inside a character of a target, of which so many bytes lack.
    TargetOne,
    TargetTwo,
    TargetThree,
    /// After a first byte behind which not every second byte may stand.
    TargetE0,
    TargetEd,
    TargetF0,
    TargetF4,
    /// In a target that is no UTF-8, which is told behind its end.
    TargetBroken,
    /// No byte of `HTTP/1.` is there.
    Version0,
    Version1,
    Version2,
    Version3,
    Version4,
    Version5,
    Version6,
    /// All of it is.
    Version7,
    /// Behind the version of a reply.
    Status,
    /// No digit of the status is there.
    Code0,
    Code1,
    Code2,
    Code3,
    /// Where a request's first line has to end.
    LineEnd,
    /// After the CR that ends a line.
    Return,
    /// Where a line of fields begins.
    Line,
    Name,
    /// In a field's value or a reply's phrase.
    Value,
    /// After the CR that ends the head.
    EndReturn,
    /// At none of these: the bytes have to be read from their beginning.
    Unknown,
}

fn line_after(byte: u8, other: Spot) -> Spot
    ensures { result ≡ line_after byte other }
{
    match byte {
        b'\n' => Spot::Line,
        b'\r' => Spot::Return,
        _ => other,
    }
}

fn first_after(kind: Kind, byte: u8) -> Spot
    ensures { result ≡ first_after kind byte }
{
    match kind {
        Kind::Request if is_method_token(byte) => Spot::Method,
        Kind::Reply if byte == b'H' => Spot::Version1,
        _ => Spot::Unknown,
    }
}

fn behind_version(kind: Kind) -> Spot
    ensures { result ≡ behind_version kind }
{
    match kind {
        Kind::Request => Spot::LineEnd,
        Kind::Reply => Spot::Status,
    }
}

/// A byte of a target between two characters.
fn target_after(byte: u8) -> Spot
    ensures { result ≡ target_after byte }
{
    match byte {
        0x00..=0x7F => Spot::Target,
        0xC2..=0xDF => Spot::TargetOne,
        0xE0 => Spot::TargetE0,
        0xE1..=0xEC => Spot::TargetTwo,
        0xED => Spot::TargetEd,
        0xEE..=0xEF => Spot::TargetTwo,
        0xF0 => Spot::TargetF0,
        0xF1..=0xF3 => Spot::TargetThree,
        0xF4 => Spot::TargetF4,
        _ => Spot::TargetBroken,
    }
}

/// A byte of a target inside a character, which goes on with one of these.
fn character_after(byte: u8, low: u8, high: u8, next: Spot) -> Spot
    ensures { result ≡ character_after low high next byte }
{
    if !is_uri_token(byte) {
        Spot::Unknown
    } else if low <= byte && byte <= high {
        next
    } else {
        Spot::TargetBroken
    }
}

/// One of a few bytes of the version or the status: there it goes on.
fn on(byte: u8, wanted: u8, next: Spot) -> Spot
    ensures { result ≡ (if byte == wanted then next else Spot.Unknown) }
{
    if byte == wanted { next } else { Spot::Unknown }
}

fn digit(byte: u8, next: Spot) -> Spot
    ensures { result ≡ (if is_ascii_digit byte then next else Spot.Unknown) }
{
    if byte.is_ascii_digit() {
        next
    } else {
        Spot::Unknown
    }
}

fn after_seven(kind: Kind, byte: u8) -> Spot
    ensures { result ≡ spot_after kind Spot.Version7 byte }
{
    match byte {
        b'0' | b'1' => behind_version(kind),
        _ => Spot::Unknown,
    }
}

fn after_empty(kind: Kind, byte: u8) -> Spot
    ensures { result ≡ spot_after kind Spot.Empty byte }
{
    match byte {
        b'\n' => Spot::Empty,
        b'\r' => Spot::EmptyReturn,
        _ => first_after(kind, byte),
    }
}

fn after_method(kind: Kind, byte: u8) -> Spot
    ensures { result ≡ spot_after kind Spot.Method byte }
{
    if is_method_token(byte) {
        Spot::Method
    } else {
        on(byte, b' ', Spot::TargetStart)
    }
}

fn after_target(kind: Kind, byte: u8) -> Spot
    ensures { result ≡ spot_after kind Spot.Target byte }
{
    if is_uri_token(byte) {
        target_after(byte)
    } else {
        on(byte, b' ', Spot::Version0)
    }
}

fn after_code(kind: Kind, byte: u8) -> Spot
    ensures { result ≡ spot_after kind Spot.Code3 byte }
{
    if byte == b' ' {
        Spot::Value
    } else {
        line_after(byte, Spot::Unknown)
    }
}

fn after_line(kind: Kind, byte: u8) -> Spot
    ensures { result ≡ spot_after kind Spot.Line byte }
{
    if is_header_name_token(byte) {
        Spot::Name
    } else {
        on(byte, b'\r', Spot::EndReturn)
    }
}

fn after_name(kind: Kind, byte: u8) -> Spot
    ensures { result ≡ spot_after kind Spot.Name byte }
{
    if is_header_name_token(byte) {
        Spot::Name
    } else {
        on(byte, b':', Spot::Value)
    }
}

fn after_value(kind: Kind, byte: u8) -> Spot
    ensures { result ≡ spot_after kind Spot.Value byte }
{
    if is_header_value_token(byte) {
        Spot::Value
    } else {
        line_after(byte, Spot::Unknown)
    }
}

fn after_target_start(kind: Kind, byte: u8) -> Spot
    ensures { result ≡ spot_after kind Spot.TargetStart byte }
{
    if is_uri_token(byte) {
        target_after(byte)
    } else {
        Spot::Unknown
    }
}

fn after_broken(kind: Kind, byte: u8) -> Spot
    ensures { result ≡ spot_after kind Spot.TargetBroken byte }
{
    if is_uri_token(byte) {
        Spot::TargetBroken
    } else {
        Spot::Unknown
    }
}

/// Where a byte more ends.
fn after(kind: Kind, at: Spot, byte: u8) -> Spot
    ensures { result ≡ spot_after kind at byte }
{
    match at {
        Spot::Empty => after_empty(kind, byte),
        Spot::EmptyReturn => on(byte, b'\n', Spot::Empty),
        Spot::Method => after_method(kind, byte),
        Spot::TargetStart => after_target_start(kind, byte),
        Spot::Target => after_target(kind, byte),
        Spot::TargetOne => character_after(byte, 0x80, 0xBF, Spot::Target),
        Spot::TargetTwo => character_after(byte, 0x80, 0xBF, Spot::TargetOne),
        Spot::TargetThree => character_after(byte, 0x80, 0xBF, Spot::TargetTwo),
        Spot::TargetE0 => character_after(byte, 0xA0, 0xBF, Spot::TargetOne),
        Spot::TargetEd => character_after(byte, 0x80, 0x9F, Spot::TargetOne),
        Spot::TargetF0 => character_after(byte, 0x90, 0xBF, Spot::TargetTwo),
        Spot::TargetF4 => character_after(byte, 0x80, 0x8F, Spot::TargetTwo),
        Spot::TargetBroken => after_broken(kind, byte),
        Spot::Version0 => on(byte, b'H', Spot::Version1),
        Spot::Version1 => on(byte, b'T', Spot::Version2),
        Spot::Version2 => on(byte, b'T', Spot::Version3),
        Spot::Version3 => on(byte, b'P', Spot::Version4),
        Spot::Version4 => on(byte, b'/', Spot::Version5),
        Spot::Version5 => on(byte, b'1', Spot::Version6),
        Spot::Version6 => on(byte, b'.', Spot::Version7),
        Spot::Version7 => after_seven(kind, byte),
        Spot::Status => on(byte, b' ', Spot::Code0),
        Spot::Code0 => digit(byte, Spot::Code1),
        Spot::Code1 => digit(byte, Spot::Code2),
        Spot::Code2 => digit(byte, Spot::Code3),
        Spot::Code3 => after_code(kind, byte),
        Spot::LineEnd => line_after(byte, Spot::Unknown),
        Spot::Return => on(byte, b'\n', Spot::Line),
        Spot::Line => after_line(kind, byte),
        Spot::Name => after_name(kind, byte),
        Spot::Value => after_value(kind, byte),
        Spot::EndReturn => Spot::Unknown,
        Spot::Unknown => Spot::Unknown,
    }
}

/// Where a piece more ends.
pub(crate) fn spot_of(kind: Kind, at: Spot, piece: &[u8]) -> Spot
    ensures { result ≡ spot_of kind at piece.now }
{
    let mut spot = at;
    for byte in piece {
        spot = after(kind, spot, *byte);
    }
    spot
}

/// Whether the head is open there. A reply has no target.
pub(crate) fn is_known(kind: Kind, at: Spot) -> bool
    ensures { result ≡ is_known kind at }
{
    match at {
        Spot::Unknown => false,
        Spot::TargetBroken => matches!(kind, Kind::Request),
        _ => true,
    }
}
