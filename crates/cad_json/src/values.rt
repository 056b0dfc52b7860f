//! The values of a feature.

ghost use Rattle.std.specs.Prelude.{OnOk};
ghost use Rattle.serde_json.specs.Data.{string};
ghost use Rattle.cad_day.specs.Days.{number_of};
ghost use Rattle.cad_day.specs.DayTexts.{day_text};
ghost use Rattle.cad_feature.specs.Values.{datum_of};
ghost use Rattle.cad_json.specs.Sent.{Sends};
ghost use Rattle.cad_json.specs.Values.{value_data};

use crate::shapes::{send_polygon, send_spot, send_whole};
use cad_day::Day;
use cad_feature::Value;
use serde::Serializer;

fn send_day<S: Serializer>(day: Day, out: &mut S) -> Result<(), S::Error>
    ensures { OnOk result (Sends (string (day_text (number_of day))) (S.written out.old) (S.written out.new)) }
{
    let bytes = day.bytes();
    out.str(str::from_utf8(&bytes).unwrap())
}

// an interval is null, since only the lifespan is an interval, and it is not written
pub(crate) fn send_value<S: Serializer>(value: &Value, out: &mut S) -> Result<(), S::Error>
    ensures { OnOk result (Sends (value_data (datum_of value.now)) (S.written out.old) (S.written out.new)) }
{
    match value {
        Value::Null | Value::Span(_) => out.unit(),
        Value::Text(text) => out.str(text.as_ref()),
        Value::Whole(whole) => send_whole(*whole, out),
        Value::Flag(flag) => out.bool(*flag),
        Value::Day(day) => send_day(*day, out),
        Value::Spot(spot) => send_spot(**spot, out),
        Value::Area(region) => send_polygon(region.rings(), out),
    }
}
