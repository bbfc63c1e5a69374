// AT+GSN: the IMEI, or the IMEI with its software version.
#![tactic(auto, unfolding(text::specs::Line::checked, text::specs::Reading::only, text::specs::Reading::either, crate::specs::Gsn::imei_text))]

ghost use Rattle.std.specs.Prelude.{true, ◌≡◌, ◌≤◌, length};
ghost use Rattle.text.specs.Bytes.{all_digits};
ghost use Rattle.text.specs.says.Handed.{TextKeeps};
ghost use Rattle.at_command.specs.Gsn.{doubled, check_digit, is_imei, imei_text};
ghost use Rattle.at_command.specs.Handed.{imei_handed};
ghost use Rattle.at_command.specs.Request.{get_imei};
ghost use Rattle.at_command.specs.says.Gsn.{says, ImeiKeeps};
ghost use Rattle.at_command.specs.says.Request.{EncodeKeeps};

use crate::write;
use text::handed::TextAt;
use text::part::Place;
use text::refusal::Refusal;
use text::{bytes, digit, handed, line};

// Where the digits stand, which is the whole line, and what they are: fifteen an IMEI, sixteen a
// version number (TS 23.003's IMEISV). One struct with the Rust's field: an enum of the two would
// be no plainer, since both hold the same place.
#[derive(Clone, Copy)]
pub struct Imei {
    pub imei: Place,
    pub is_version_number: bool,
}

// The digits of twice d, added.
fn double(d: u8) -> u8
    requires { d ≤ 9 }
    ensures { result ≡ doubled d }
{
    2 * d / 10 + 2 * d % 10
}

// The check digit that belongs to the digits of s.
#[tactic(auto, using(crate::proofs::gsn::Laws::to_nine))]
fn check_digit(s: &[u8]) -> u8
    requires { (all_digits s.now ≡ true) × (length s.now ≤ 14) }
    ensures { result ≡ check_digit s.now }
{
    let mut sum: u8 = 0;
    let mut odd = false;
    for x in s {
        let d = digit::value(*x);
        sum += if odd { double(d) } else { d };
        odd = !odd;
    }
    (10 - sum % 10) % 10
}

// Whether digits are fourteen and their check digit.
#[tactic(auto, using(crate::proofs::gsn::Laws::fifteen_is))]
fn is_imei(s: &[u8]) -> bool
    requires { all_digits s.now ≡ true }
    ensures { result ≡ is_imei s.now }
{
    s.len() == 15 && digit::value(s[14]) == check_digit(&s[..14])
}

impl Imei {
    pub(crate) fn from_checked(line: &[u8]) -> Result<Imei, Refusal>
        ensures { says result ≡ imei_text line.now }
    {
        if 16 < line.len() || !bytes::all_digits(line) {
            return Err(Refusal::NotThisLine);
        }
        let imei = Place {
            start: 0,
            end: line.len(),
        };
        if is_imei(line) {
            return Ok(Imei {
                imei,
                is_version_number: false,
            });
        }
        if line.len() == 16 {
            return Ok(Imei {
                imei,
                is_version_number: true,
            });
        }
        Err(Refusal::NotThisLine)
    }

    pub fn from_line(line: &[u8]) -> Result<Imei, Refusal>
        ensures { ImeiKeeps line.now result }
    {
        line::check_line(line)?;
        Imei::from_checked(line)
    }

    // The IMEI or version number.
    pub fn imei_text<'a>(line: &'a [u8]) -> Result<&'a [u8], Refusal>
        ensures { TextKeeps line.entry line.entry (imei_handed line.now) result }
    {
        let number = Imei::from_line(line)?;
        Ok(handed::cut(TextAt::InLine(number.imei), line, line))
    }
}

// AT+GSN
#[derive(Clone, Copy)]
pub struct GetImei;

impl GetImei {
    pub fn encode(self, out: &mut [u8]) -> Result<usize, Refusal>
        ensures { EncodeKeeps get_imei out.old result out.new }
    {
        write::plain(b"AT+GSN\r", out)
    }
}
