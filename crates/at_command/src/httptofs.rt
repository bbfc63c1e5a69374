// AT+HTTPTOFS: a download to the modem's file system.
#![tactic(auto, unfolding(text::specs::Line::checked, text::specs::Reading::only, crate::specs::Httptofs::download_of, crate::specs::Httptofs::httptofs_text))]

ghost use Rattle.std.specs.Prelude.{◌≡◌};
ghost use Rattle.text.specs.Gives.{Gives};
ghost use Rattle.text.specs.Code.{code_in};
ghost use Rattle.text.specs.Number.{unsigned};
ghost use Rattle.text.specs.Part.{after};
ghost use Rattle.at_command.specs.Httptofs.{http_codes, or_zero, download_of, httptofs_text};
ghost use Rattle.at_command.specs.Request.{download_to_file_system};
ghost use Rattle.at_command.specs.says.Httptofs.{says, status_number, info_says, DownloadInfoKeeps, SuccessKeeps};
ghost use Rattle.at_command.specs.says.Request.{EncodeKeeps};

use crate::prefix;
use crate::write::{self, Command};
use text::bytes::is_text;
use text::refusal::Refusal;
use text::{line, number, part};

#[derive(Clone, Copy, Debug, PartialEq, Eq)]
pub enum StatusCode {
    Continue = 100,
    Ok = 200,
    PartialContent = 206,
    BadRequest = 400,
    NotFound = 404,
    RequestTimeout = 408,
    InternalServerError = 500,
    NotHttpPdu = 600,
    NetworkError = 601,
    NoMemory = 602,
    DnsError = 603,
    StackBusy = 604,
    SslContinue = 620,
    OtherErrors = 0,
}

#[derive(Clone, Copy, Debug, PartialEq, Eq)]
pub struct DownloadInfo {
    pub status_code: StatusCode,
    pub data_length: u64,
}

impl StatusCode {
    // The code's number, 0 for OtherErrors.
    pub fn number(self) -> u16
        ensures { Gives (status_number self) result }
    {
        self as u16
    }

    // Whether a download succeeded, or the code of why not.
    pub fn success(self) -> Result<(), StatusCode>
        ensures { SuccessKeeps self result }
    {
        match self {
            StatusCode::Ok => Ok(()),
            failure => Err(failure),
        }
    }
}

fn status_of(t: &[u8]) -> StatusCode
    ensures { status_number result ≡ or_zero (code_in http_codes t.now) }
{
    match t {
        _ if is_text(t, b"100") => StatusCode::Continue,
        _ if is_text(t, b"200") => StatusCode::Ok,
        _ if is_text(t, b"206") => StatusCode::PartialContent,
        _ if is_text(t, b"400") => StatusCode::BadRequest,
        _ if is_text(t, b"404") => StatusCode::NotFound,
        _ if is_text(t, b"408") => StatusCode::RequestTimeout,
        _ if is_text(t, b"500") => StatusCode::InternalServerError,
        _ if is_text(t, b"600") => StatusCode::NotHttpPdu,
        _ if is_text(t, b"601") => StatusCode::NetworkError,
        _ if is_text(t, b"602") => StatusCode::NoMemory,
        _ if is_text(t, b"603") => StatusCode::DnsError,
        _ if is_text(t, b"604") => StatusCode::StackBusy,
        _ if is_text(t, b"620") => StatusCode::SslContinue,
        _ => StatusCode::OtherErrors,
    }
}

fn length_of(t: &[u8]) -> u64
    ensures { result ≡ or_zero (unsigned 10 18446744073709551615 (after 44 t.now)) }
{
    number::parse_u64(part::after_byte(t, b',')).unwrap_or(0)
}

fn download(t: &[u8]) -> DownloadInfo
    ensures { info_says result ≡ download_of t.now }
{
    DownloadInfo {
        status_code: status_of(part::before_byte(t, b',')),
        data_length: length_of(t),
    }
}

impl DownloadInfo {
    pub(crate) fn from_checked(line: &[u8]) -> Result<DownloadInfo, Refusal>
        ensures { says result ≡ httptofs_text line.now }
    {
        let rest = prefix::strip(line, b"+HTTPTOFS: ").ok_or(Refusal::NotThisLine)?;
        Ok(download(rest))
    }

    pub fn from_line(line: &[u8]) -> Result<DownloadInfo, Refusal>
        ensures { DownloadInfoKeeps line.now result }
    {
        line::check_line(line)?;
        DownloadInfo::from_checked(line)
    }
}

// AT+HTTPTOFS="<url>","<file_path>"
#[derive(Clone, Copy)]
pub struct DownloadToFileSystem;

impl DownloadToFileSystem {
    pub fn encode(self, url: &[u8], file_path: &[u8], out: &mut [u8]) -> Result<usize, Refusal>
        ensures { EncodeKeeps (download_to_file_system url.now file_path.now) out.old result out.new }
    {
        write::check_texts(url, 64, file_path, 32)?;
        let mut command = Command::new();
        command.text(b"AT+HTTPTOFS=");
        command.quoted(url);
        command.byte(b',');
        command.quoted(file_path);
        command.byte(b'\r');
        command.write_to(out)
    }
}
