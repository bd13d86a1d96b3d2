//! The members of a JSON object that a line needs, each with its fault.

ghost use Rattle.std.specs.Prelude.{◌≡◌};
ghost use Rattle.serde_json.specs.View.{view};
ghost use Rattle.si_text.specs.Lines.{Gives, number_at, text_at, status_at, status_named, outcome_of};

use crate::{Field, LineFault};
use serde_json::Value;
use si_model::{Outcome, Stamp, Status};

/// The number under the name of a field.
#[tactic(auto, unfolding(crate::specs::Lines::number_at))]
pub(crate) fn number_at(value: &Value, field: Field) -> Result<u64, LineFault>
    ensures { Gives result (number_at field (view value.now)) }
{
    match value.get(field.name()).and_then(Value::as_u64) {
        Some(number) => Ok(number),
        None => Err(LineFault::BadField(field)),
    }
}

/// The status under its name, or none where its word isn't known.
#[tactic(auto, unfolding(crate::specs::Lines::status_at, crate::specs::Lines::text_at, crate::specs::Lines::status_named))]
pub(crate) fn status_at(value: &Value) -> Result<Option<Status>, LineFault>
    ensures { Gives result (status_at (view value.now)) }
{
    let Some(word) = value.get(Field::Status.name()).and_then(Value::as_str) else {
        return Err(LineFault::BadField(Field::Status));
    };
    if word == "committed" {
        let commit = number_at(value, Field::Commit)?;
        return Ok(Some(Status::Committed(Stamp(commit))));
    }
    if word == "aborted" {
        return Ok(Some(Status::Aborted));
    }
    if word == "indoubt" {
        return Ok(Some(Status::InDoubt));
    }
    Ok(None)
}

/// What a status says of a transaction that was in doubt.
pub(crate) fn outcome_of(status: Status) -> Option<Outcome>
    ensures { result ≡ outcome_of status }
{
    match status {
        Status::Committed(commit) => Some(Outcome::Committed(commit)),
        Status::Aborted => Some(Outcome::Aborted),
        Status::InDoubt => None,
    }
}
