// Says what a line says, in the formats of oracle/README.md. One CR at its end goes.
use crate::show::{Bits, OrNone, Refused, decimal, quoted};
use at_command::ResponseCode;
use at_command::generic_response::SimError;
use std::io;
use std::io::Write;
use text::part::Place;
use text::{handed, part};
use trial::{Line, straight};
use unsolicited::Urc;
use unsolicited::network_registration::NetworkRegistration;
use unsolicited::ugnsinf::{GnssFix, GnssReport};

pub(crate) fn answer(out: &mut impl Write, line: &[u8]) -> io::Result<()> {
    let line = line.strip_suffix(b"\r").unwrap_or(line);
    match straight::said(line) {
        Ok(Line::Response(code)) => response(out, line, code),
        Ok(Line::Unsolicited(Urc::GnssReport(report))) => gnss_report(out, report),
        Ok(Line::Unsolicited(Urc::NetworkRegistration(found))) => registration(out, found),
        Err(refusal) => write!(out, "{}", Refused(refusal)),
    }
}

fn response(out: &mut impl Write, line: &[u8], code: ResponseCode) -> io::Result<()> {
    match code {
        ResponseCode::Ok(_) => write!(out, "GenericOk"),
        ResponseCode::Error(error) => sim_error(out, error),
        ResponseCode::WritePrompt(_) => write!(out, "WritePrompt"),
        ResponseCode::CloseOk(close) => write!(out, "CloseOk {}", decimal(close.connection)),
        ResponseCode::Iccid(id) => {
            let country = decimal(id.country);
            let issuer = decimal(id.issuer);
            let account = decimal(id.account);
            write!(out, "Iccid {country} {issuer} {account}")
        }
        ResponseCode::SignalQuality(quality) => {
            let strength = OrNone(quality.signal_strength.map(Bits));
            let errors = OrNone(quality.signal_quality.map(Bits));
            write!(out, "SignalQuality {strength} {errors}")
        }
        ResponseCode::SystemInfo(info) => {
            let system = info.system_mode;
            let operation = info.operation_mode;
            write!(out, "SystemInfo {system:?} {operation:?}")
        }
        ResponseCode::OperatorInfo(info) => {
            let mode = info.mode;
            let format = info.format;
            write!(out, "OperatorInfo {mode:?} {format:?} ")?;
            quoted(out, handed::cut(info.operator_name, line, b""))
        }
        ResponseCode::NetworkTime(time) => {
            let code = time.code;
            write!(out, "NetworkTime {code:?} ")?;
            match time.time {
                Some(place) => quoted(out, text(line, place)),
                None => write!(out, "none"),
            }
        }
        ResponseCode::DownloadInfo(info) => {
            let status = info.status_code;
            write!(out, "DownloadInfo {status:?} {}", decimal(info.data_length))
        }
        ResponseCode::Imei(id) => {
            let version = if id.is_version_number { "version " } else { "" };
            write!(out, "Imei {version}")?;
            quoted(out, text(line, id.imei))
        }
        ResponseCode::SmsMessageFormat(format) => write!(out, "SmsMessageFormat {format:?}"),
        ResponseCode::SmsMessage(message) => {
            write!(out, "SmsMessage ")?;
            quoted(out, text(line, message.sender))
        }
    }
}

fn text(line: &[u8], place: Place) -> &[u8] {
    part::part(line, place.start, place.end)
}

fn sim_error(out: &mut impl Write, error: SimError) -> io::Result<()> {
    match error {
        SimError::Generic => write!(out, "SimError Generic"),
        SimError::CmeErr { code } => write!(out, "SimError CmeErr {}", decimal(code)),
        SimError::CmsErr { code } => write!(out, "SimError CmsErr {}", decimal(code)),
    }
}

fn registration(out: &mut impl Write, registration: NetworkRegistration) -> io::Result<()> {
    let status = registration.status;
    let lac = OrNone(registration.lac.map(decimal));
    let ci = OrNone(registration.ci.map(decimal));
    write!(out, "NetworkRegistration {status:?} {lac} {ci}")
}

fn gnss_report(out: &mut impl Write, report: GnssReport) -> io::Result<()> {
    match report {
        GnssReport::NotEnabled => write!(out, "GnssReport NotEnabled"),
        GnssReport::NoFix { sat_gps_view } => {
            let view = OrNone(sat_gps_view.map(decimal));
            write!(out, "GnssReport NoFix {view}")
        }
        GnssReport::Fix(fix) => gnss_fix(out, fix),
    }
}

fn gnss_fix(out: &mut impl Write, fix: GnssFix) -> io::Result<()> {
    let date = fix.date_time;
    write!(
        out,
        "GnssReport Fix {} {} {} {} {} {}",
        decimal(date.year),
        decimal(date.month),
        decimal(date.day),
        decimal(date.hour),
        decimal(date.minute),
        decimal(date.second)
    )?;
    for float in [
        fix.latitude,
        fix.longitude,
        fix.altitude,
        fix.hdop,
        fix.pdop,
        fix.vdop,
        fix.speed_over_ground,
        fix.course_over_ground,
    ] {
        write!(out, " {}", Bits(float))?;
    }
    write!(
        out,
        " {} {} {} {}",
        decimal(fix.sat_gps_in_view),
        decimal(fix.sat_gnss_used),
        decimal(fix.sat_glonass_used),
        decimal(fix.signal_noise_ratio)
    )
}
