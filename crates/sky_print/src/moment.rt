ghost use Rattle.std.specs.Prelude.{◌≡◌, ◌++◌, pos, ◌+ℤ◌, ◌*ℤ◌, OnOk, OnErr};
ghost use Rattle.jiff_core.specs.DateTime.{civil_nanos};
ghost use Rattle.sky_model.specs.Moment.{moment, HasMoment};
ghost use Rattle.sky_print.specs.Calendar.{IsMoment};

use arrayvec::ArrayString;
use jiff::Timestamp;
use jiff::civil::DateTime;
use jiff::tz::Offset;
use jiff_fmt::temporal::DateTimePrinter;
use sky_val::NoMemory;

// 2012-01-01 00:00:00, in microseconds since 1970.
const START: i64 = 1_325_376_000_000_000;

/// Appends the moment so many microseconds after the clock's start, as `2012-01-01 00:00:00.000000`.
pub fn print_moment(now: i64, into: &mut Vec<u8>) -> Result<(), NoMemory>
    requires { HasMoment now }
    ensures ok { OnOk result (into.new.items ≡ into.old.items ++ moment now) }
    ensures err { OnErr result (into.new.items ≡ into.old.items) }
{
    into.extend_from_slice(moment_text(now).as_str().as_bytes())
}

fn moment_text(now: i64) -> ArrayString<32>
    requires { HasMoment now }
    ensures { IsMoment now result.bytes }
{
    let printer = DateTimePrinter::new().separator(b' ').precision(Some(6));
    printer.datetime_text(civil_at(now).to_plain())
}

// What a calendar and a clock show at the moment.
fn civil_at(now: i64) -> DateTime
    requires { HasMoment now }
    ensures { civil_nanos result ≡ (now +ℤ pos 1_325_376_000_000_000) *ℤ pos 1000 }
{
    match Timestamp::from_microsecond(START + now) {
        Ok(instant) => Offset::UTC.to_datetime(instant),
        Err(_) => unreachable!(),
    }
}
