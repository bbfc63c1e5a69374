// Replays outside vectors: for a kind, a TAB and a text in hexadecimal, what the reader of that kind says of the text. oracle/README.md has the kinds, and where the vectors are from.
use crate::hex;
use crate::show::{Bits, Hex, OrNone, Refused, Signed, decimal};
use at_command::cmgr::SmsMessage;
use at_command::cntp::NetworkTime;
use at_command::cops::OperatorInfo;
use at_command::gsn::Imei;
use at_command::httptofs::DownloadInfo;
use std::io;
use std::io::Write;
use text::refusal::Refusal;
use text::{field, number, utf8};

// The bytes stand in an array of fixed size: no input makes it grow.
pub(crate) fn answer(out: &mut impl Write, line: &[u8]) -> io::Result<()> {
    let mut bytes = [0u8; 4096];
    match hex::decode(field::field(line, b'\t', 1), &mut bytes) {
        Some(text) => read(out, field::field(line, b'\t', 0), text),
        None => write!(out, "unknown"),
    }
}

// By the name of the kind, here and below. Each arm has a reader and what prints its
// answer: a table of functions would be no plainer.
fn read(out: &mut impl Write, kind: &[u8], s: &[u8]) -> io::Result<()> {
    match kind {
        b"u8" => write!(out, "{}", OrNone(number::parse_u8(s).map(decimal))),
        b"u16" => write!(out, "{}", OrNone(number::parse_u16(s).map(decimal))),
        b"u32" => write!(out, "{}", OrNone(number::parse_u32(s).map(decimal))),
        b"u64" => write!(out, "{}", OrNone(number::parse_u64(s).map(decimal))),
        b"i32" => write!(out, "{}", OrNone(number::parse_i32(s).map(Signed))),
        b"x16" => write!(out, "{}", OrNone(number::parse_hex_u16(s).map(decimal))),
        b"x32" => write!(out, "{}", OrNone(number::parse_hex_u32(s).map(decimal))),
        b"f32" => write!(out, "{}", OrNone(numeral::read(s).map(Bits))),
        b"utf8" => out.write_all(if utf8::is_utf8(s) { b"yes" } else { b"no" }),
        _ => read_line(out, kind, s),
    }
}

// What reads a line and hands out a part of it.
fn read_line(out: &mut impl Write, kind: &[u8], line: &[u8]) -> io::Result<()> {
    match kind {
        b"imei" => handed(out, Imei::imei_text(line)),
        b"time" => handed(out, NetworkTime::time_text(line)),
        b"sender" => handed(out, SmsMessage::sender_text(line)),
        b"name" => handed(out, OperatorInfo::name_text(line, b"0", b"")),
        b"lent" => handed(out, OperatorInfo::name_text(line, b"2", b"\"64304\"")),
        b"success" => success(out, line),
        _ => write!(out, "unknown"),
    }
}

// A text that was handed out, in hexadecimal, or its refusal.
fn handed(out: &mut impl Write, text: Result<&[u8], Refusal>) -> io::Result<()> {
    match text {
        Ok([]) => write!(out, "empty"),
        Ok(text) => write!(out, "{}", Hex(text)),
        Err(refusal) => write!(out, "{}", Refused(refusal)),
    }
}

fn success(out: &mut impl Write, line: &[u8]) -> io::Result<()> {
    match DownloadInfo::from_line(line).map(|info| info.status_code.success()) {
        Ok(Ok(())) => write!(out, "ok"),
        Ok(Err(code)) => write!(out, "err {}", decimal(code.number())),
        Err(refusal) => write!(out, "{}", Refused(refusal)),
    }
}
