// The 20 numbers of each reader: its number, its values, and zeros. Numbers in place of types are
// the C interface: bindings/c/sim7000.h says what each place holds.
ghost use Rattle.std.specs.Prelude.{◌≡◌, ◌≤◌, length};
ghost use Rattle.text.specs.says.Part.{place_says};
ghost use Rattle.text.specs.says.Refusal.{option_said};
ghost use Rattle.numeral.specs.Bits.{bits_of};
ghost use Rattle.at_command.specs.Response.{error, iccid, signal, system};
ghost use Rattle.at_command.specs.Response.{operator, time, download, imei};
ghost use Rattle.at_command.specs.says.Ccid.{card_says};
ghost use Rattle.at_command.specs.says.Cntp as Cntp;
ghost use Rattle.at_command.specs.says.Cops as Cops;
ghost use Rattle.at_command.specs.says.Cpsi as Cpsi;
ghost use Rattle.at_command.specs.says.Csq.{signal_says};
ghost use Rattle.at_command.specs.says.Generic.{fault_says};
ghost use Rattle.at_command.specs.says.Gsn.{imei_says};
ghost use Rattle.at_command.specs.says.Httptofs as Httptofs;
ghost use Rattle.at_command.specs.says.Response.{code_says};
ghost use Rattle.unsolicited.specs.Gnss.{fix};
ghost use Rattle.unsolicited.specs.Urc.{gnss, registration};
ghost use Rattle.unsolicited.specs.says.Gnss.{report_says, fix_says};
ghost use Rattle.unsolicited.specs.says.Registration.{registration_says};
ghost use Rattle.unsolicited.specs.says.Urc.{urc_says};
ghost use Rattle.trial.specs.Answer.{response, unsolicited};
ghost use Rattle.sim7000.specs.Values.{there, padded, line_values, name_in, name_span};

use at_command::ResponseCode;
use at_command::ccid::Iccid;
use at_command::cntp::NetworkTime;
use at_command::cops::OperatorInfo;
use at_command::cpsi::SystemInfo;
use at_command::csq::SignalQuality;
use at_command::generic_response::SimError;
use at_command::gsn::Imei;
use at_command::httptofs::DownloadInfo;
use numeral::bits;
use text::handed::TextAt;
use text::part::Place;
use unsolicited::Urc;
use unsolicited::network_registration::NetworkRegistration;
use unsolicited::ugnsinf::{GnssFix, GnssReport};

// The bits of a float, as one of the 20 numbers.
fn float(x: f32) -> u64
    ensures { result ≡ bits_of x }
{
    bits::bits_of(x).into()
}

// Whether a value that a line may lack is there.
fn there<T: Copy>(value: Option<T>) -> u64
    ensures { result ≡ there (option_said value) }
{
    value.is_some().into()
}

// The reader's number and its values, and zeros behind them.
fn row(numbers: &[u64]) -> [u64; 20]
    requires { length numbers.now ≤ 20 }
    ensures { result ≡ padded numbers.now }
{
    let mut row = [0; 20];
    row[..numbers.len()].copy_from_slice(numbers);
    row
}

fn error_values(fault: SimError) -> [u64; 20]
    ensures { result ≡ line_values (response (error (fault_says fault))) }
{
    match fault {
        SimError::Generic => row(&[2, 0, 0]),
        SimError::CmeErr { code } => row(&[2, 1, code.into()]),
        SimError::CmsErr { code } => row(&[2, 2, code.into()]),
    }
}

fn iccid_values(card: Iccid) -> [u64; 20]
    ensures { result ≡ line_values (response (iccid (card_says card))) }
{
    row(&[
        5,
        card.country.into(),
        card.issuer.into(),
        card.account.into(),
    ])
}

fn signal_values(info: SignalQuality) -> [u64; 20]
    ensures { result ≡ line_values (response (signal (signal_says info))) }
{
    let strength = info.signal_strength;
    let quality = info.signal_quality;
    row(&[
        6,
        there(strength),
        strength.map_or(0, float),
        there(quality),
        quality.map_or(0, float),
    ])
}

fn system_values(info: SystemInfo) -> [u64; 20]
    ensures { result ≡ line_values (response (system (Cpsi.info_says info))) }
{
    row(&[7, info.system_mode as u64, info.operation_mode as u64])
}

// 0 and its place where the name stands in the line, 1 and its place where in the fallback text.
fn placed(name: TextAt) -> (u64, Place)
    ensures text { result.0 ≡ name_in (Cops.name_says name) }
    ensures place { place_says result.1 ≡ name_span (Cops.name_says name) }
{
    match name {
        TextAt::InLine(place) => (0, place),
        TextAt::InFallback(place) => (1, place),
    }
}

fn operator_values(info: OperatorInfo) -> [u64; 20]
    ensures { result ≡ line_values (response (operator (Cops.info_says info))) }
{
    let (text, place) = placed(info.operator_name);
    row(&[
        8,
        info.mode as u64,
        info.format as u64,
        text,
        place.start as u64,
        place.end as u64,
    ])
}

fn time_values(net: NetworkTime) -> [u64; 20]
    ensures { result ≡ line_values (response (time (Cntp.info_says net))) }
{
    row(&[
        9,
        net.code as u64,
        there(net.time),
        net.time.map_or(0, |place| place.start as u64),
        net.time.map_or(0, |place| place.end as u64),
    ])
}

fn download_values(info: DownloadInfo) -> [u64; 20]
    ensures { result ≡ line_values (response (download (Httptofs.info_says info))) }
{
    row(&[10, info.status_code as u64, info.data_length])
}

fn imei_values(number: Imei) -> [u64; 20]
    ensures { result ≡ line_values (response (imei (imei_says number))) }
{
    row(&[
        11,
        number.imei.start as u64,
        number.imei.end as u64,
        number.is_version_number.into(),
    ])
}

pub(crate) fn response_values(code: ResponseCode) -> [u64; 20]
    ensures { result ≡ line_values (response (code_says code)) }
{
    match code {
        ResponseCode::Ok(_) => row(&[1]),
        ResponseCode::Error(fault) => error_values(fault),
        ResponseCode::WritePrompt(_) => row(&[3]),
        ResponseCode::CloseOk(close) => row(&[4, close.connection]),
        ResponseCode::Iccid(card) => iccid_values(card),
        ResponseCode::SignalQuality(info) => signal_values(info),
        ResponseCode::SystemInfo(info) => system_values(info),
        ResponseCode::OperatorInfo(info) => operator_values(info),
        ResponseCode::NetworkTime(net) => time_values(net),
        ResponseCode::DownloadInfo(info) => download_values(info),
        ResponseCode::Imei(number) => imei_values(number),
        ResponseCode::SmsMessageFormat(format) => row(&[12, format as u64]),
        ResponseCode::SmsMessage(message) => row(&[
            13,
            message.sender.start as u64,
            message.sender.end as u64,
        ]),
    }
}

fn fix_values(found: GnssFix) -> [u64; 20]
    ensures { result ≡ line_values (unsolicited (gnss (fix (fix_says found)))) }
{
    let date = found.date_time;
    [
        14,
        2,
        date.year.into(),
        date.month.into(),
        date.day.into(),
        date.hour.into(),
        date.minute.into(),
        date.second.into(),
        float(found.latitude),
        float(found.longitude),
        float(found.altitude),
        float(found.speed_over_ground),
        float(found.course_over_ground),
        float(found.hdop),
        float(found.pdop),
        float(found.vdop),
        found.sat_gps_in_view.into(),
        found.sat_gnss_used.into(),
        found.sat_glonass_used.into(),
        found.signal_noise_ratio.into(),
    ]
}

fn report_values(report: GnssReport) -> [u64; 20]
    ensures { result ≡ line_values (unsolicited (gnss (report_says report))) }
{
    match report {
        GnssReport::NotEnabled => row(&[14, 0]),
        GnssReport::NoFix { sat_gps_view } => row(&[
            14,
            1,
            there(sat_gps_view),
            sat_gps_view.unwrap_or(0).into(),
        ]),
        GnssReport::Fix(found) => fix_values(found),
    }
}

fn registration_values(network: NetworkRegistration) -> [u64; 20]
    ensures { result ≡ line_values (unsolicited (registration (registration_says network))) }
{
    row(&[
        15,
        network.status as u64,
        there(network.lac),
        network.lac.unwrap_or(0).into(),
        there(network.ci),
        network.ci.unwrap_or(0).into(),
    ])
}

pub(crate) fn urc_values(urc: Urc) -> [u64; 20]
    ensures { result ≡ line_values (unsolicited (urc_says urc)) }
{
    match urc {
        Urc::GnssReport(report) => report_values(report),
        Urc::NetworkRegistration(network) => registration_values(network),
    }
}
