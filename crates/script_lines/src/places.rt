ghost use Rattle.std.specs.Prelude.{◌∷◌, [], ◌≤◌};
ghost use Rattle.script_lines.specs.Fields.{and_then};
ghost use Rattle.script_lines.specs.Places.{ahead};
ghost use Rattle.script_lines.specs.Forms.{noise_or, places_form, Parses};

use crate::ScriptKind;
use crate::fields::place_field;
use arrayvec::ArrayVec;
use fire_code::Noise;
use mass_text::Fields;

/// The places of a noise from its first one on.
fn places_from(first: u16, fields: &mut Fields) -> Result<Noise, ScriptKind>
    requires { first ≤ 4127 }
    ensures { Parses (λ fs. and_then (ahead (first ∷ []) fs) noise_or) fields.old result fields.new }
{
    let mut places: ArrayVec<u16, 64> = ArrayVec::new();
    places.push(first);
    'places: while let Some(field) = fields.next() {
        let place = place_field(field)?;
        if places.is_full() {
            return Err(ScriptKind::Bits);
        }
        places.push(place);
    }
    match Noise::new(places.as_slice()) {
        Some(noise) => Ok(noise),
        None => Err(ScriptKind::Bits),
    }
}

/// Reads the places of a noise: 1 to 64 numbers up to 4127, in strictly ascending order. They take up the rest of the line.
pub fn places(fields: &mut Fields) -> Result<Noise, ScriptKind>
    ensures { Parses places_form fields.old result fields.new }
{
    match fields.next() {
        Some(text) => match place_field(text) {
            Ok(first) => places_from(first, fields),
            Err(kind) => Err(kind),
        },
        None => Err(ScriptKind::Word),
    }
}
