//! Values with numbers that have a fraction or an exponent.
ghost use Rattle.std.specs.Prelude.{◌≡◌};
ghost use Rattle.serde_json.specs.View.{view};
ghost use Rattle.serde_json.specs.Written as spec;

use serde_json::Value;

/// Whether the value has a number with a fraction or an exponent.
pub(crate) fn has_float(value: &Value) -> bool
    ensures { result ≡ spec.has_float (view value.now) }
{
    match value {
        Value::Number(number) => number.is_f64(),
        Value::Array(items) => {
            for item in items {
                if has_float(item) {
                    return true;
                }
            }
            false
        }
        Value::Object(members) => {
            for (_, member) in members.iter() {
                if has_float(member) {
                    return true;
                }
            }
            false
        }
        _ => false,
    }
}
