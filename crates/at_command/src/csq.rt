// AT+CSQ: the strength and the quality of the signal.
#![tactic(auto, unfolding(text::specs::Line::checked, text::specs::Reading::only, text::specs::Reading::need_else, crate::specs::Csq::csq_codes, crate::specs::Csq::csq_rest, crate::specs::Csq::csq_text))]

ghost use Rattle.std.specs.Prelude.{◌≡◌, ◌≤◌};
ghost use Rattle.text.specs.says.Refusal.{option_said, option_mapped};
ghost use Rattle.at_command.specs.Csq.{dbm_of, strength_of, quality_of, level_of, csq_codes, csq_rest, csq_text};
ghost use Rattle.at_command.specs.Request.{get_signal_quality};
ghost use Rattle.at_command.specs.says.Csq.{says, SignalQualityKeeps};
ghost use Rattle.at_command.specs.says.Request.{EncodeKeeps};

use crate::{prefix, write};
use text::refusal::Refusal;
use text::{bytes, line, number, part};

#[derive(Clone, Copy, Debug, PartialEq)]
pub struct SignalQuality {
    // A percentage, where it is known.
    pub signal_strength: Option<f32>,
    // A percentage, where it is known.
    pub signal_quality: Option<f32>,
}

// The bit error rates, in percent.
const RATES: [f32; 8] = [0.14, 0.28, 0.57, 1.13, 2.26, 4.53, 9.05, 18.10];

// The power in dBm.
#[tactic(auto, using(crate::proofs::csq::Laws::power_is), unfolding(crate::specs::Csq::dbm_of))]
fn dbm(rssi: u8) -> i32
    requires { rssi ≤ 31 }
    ensures { result ≡ dbm_of rssi }
{
    match rssi {
        0 => -115,
        1 => -111,
        _ => -110 + 2 * (rssi as i32 - 2),
    }
}

// The power above -115 dBm, as a percentage of the 63 dB up to the strongest. Each step rounds, so
// the division stays first.
fn strength(rssi: u8) -> f32
    requires { rssi ≤ 31 }
    ensures { result ≡ strength_of rssi }
{
    100.0 * ((dbm(rssi) + 115) as f32 / 63.0)
}

#[tactic(auto, using(crate::proofs::csq::Laws::quality_is), unfolding(crate::specs::Csq::level_of))]
// The level of a known code; 99 says that it is not known.
fn strength_of(rssi: u8) -> Option<Option<f32>>
    ensures { option_mapped option_said result ≡ level_of 31 strength_of rssi }
{
    match rssi {
        0..=31 => Some(Some(strength(rssi))),
        99 => Some(None),
        _ => None,
    }
}

#[tactic(auto, using(crate::proofs::csq::Laws::quality_is), unfolding(crate::specs::Csq::level_of))]
// What the bit error rate leaves of 100 percent.
fn quality_of(ber: u8) -> Option<Option<f32>>
    ensures { option_mapped option_said result ≡ level_of 7 quality_of ber }
{
    match ber {
        0..=7 => Some(Some(100.0 - RATES[ber as usize])),
        99 => Some(None),
        _ => None,
    }
}

fn signal_codes(rssi: u8, ber: u8) -> Result<SignalQuality, Refusal>
    ensures { says result ≡ csq_codes rssi ber }
{
    let signal_strength = strength_of(rssi).ok_or(Refusal::NotThisLine)?;
    let signal_quality = quality_of(ber).ok_or(Refusal::NotThisLine)?;
    Ok(SignalQuality {
        signal_strength,
        signal_quality,
    })
}

fn signal_quality(t: &[u8]) -> Result<SignalQuality, Refusal>
    ensures { says result ≡ csq_rest t.now }
{
    if !bytes::has_byte(t, b',') {
        return Err(Refusal::NotThisLine);
    }
    let rssi = number::parse_u8(part::before_byte(t, b',')).ok_or(Refusal::NotThisLine)?;
    let ber = number::parse_u8(part::after_byte(t, b',')).ok_or(Refusal::NotThisLine)?;
    signal_codes(rssi, ber)
}

impl SignalQuality {
    pub(crate) fn from_checked(line: &[u8]) -> Result<SignalQuality, Refusal>
        ensures { says result ≡ csq_text line.now }
    {
        let rest = prefix::strip(line, b"+CSQ: ").ok_or(Refusal::NotThisLine)?;
        signal_quality(rest)
    }

    pub fn from_line(line: &[u8]) -> Result<SignalQuality, Refusal>
        ensures { SignalQualityKeeps line.now result }
    {
        line::check_line(line)?;
        SignalQuality::from_checked(line)
    }
}

// AT+CSQ
#[derive(Clone, Copy)]
pub struct GetSignalQuality;

impl GetSignalQuality {
    pub fn encode(self, out: &mut [u8]) -> Result<usize, Refusal>
        ensures { EncodeKeeps get_signal_quality out.old result out.new }
    {
        write::plain(b"AT+CSQ\r", out)
    }
}
