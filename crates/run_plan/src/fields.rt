//! Lines of fields.

ghost use Rattle.std.specs.Prelude.{◌≡◌, ◌++◌, ◌∷◌, [], fold, decimal, OnOk};
ghost use Rattle.run_plan.specs.Fields.{field_text, with_field};

use itoa::Buffer;
use std::alloc::AllocError;

/// A field of a line: a number, a word, or a number with two digits after its point, in hundredths.
#[derive(Clone, Copy)]
pub(crate) enum Field {
    Number(u64),
    Word(&'static str),
    Hundredths { whole: u64, rest: u64 },
}

/// Puts a text.
pub(crate) fn put(out: &mut Vec<u8>, text: &str) -> Result<(), AllocError>
    ensures { OnOk result (out.new.items ≡ out.old.items ++ text.now) }
{
    out.extend_from_slice(text.as_bytes())?;
    Ok(())
}

/// Puts a number.
pub(crate) fn put_number(out: &mut Vec<u8>, number: u64) -> Result<(), AllocError>
    ensures { OnOk result (out.new.items ≡ out.old.items ++ decimal number) }
{
    let mut buffer = Buffer::new();
    put(out, buffer.format(number))
}

/// Puts a field.
fn put_field(out: &mut Vec<u8>, field: Field) -> Result<(), AllocError>
    ensures { OnOk result (out.new.items ≡ out.old.items ++ field_text field) }
{
    match field {
        Field::Number(number) => put_number(out, number),
        Field::Word(word) => put(out, word),
        Field::Hundredths { whole, rest } => {
            put_number(out, whole)?;
            put(out, ".")?;
            put_number(out, rest / 10 % 10)?;
            put_number(out, rest % 10)
        }
    }
}

/// Puts fields, each after a tab.
fn put_others(out: &mut Vec<u8>, others: &[Field]) -> Result<(), AllocError>
    ensures { OnOk result (out.new.items ≡ fold (λ text f. with_field text (field_text f)) out.old.items others.now) }
{
    for field in others.iter() {
        put(out, "\t")?;
        put_field(out, *field)?;
    }
    Ok(())
}

/// Puts a line.
pub(crate) fn put_line(out: &mut Vec<u8>, first: Field, others: &[Field]) -> Result<(), AllocError>
    ensures { OnOk result (out.new.items ≡ fold (λ text f. with_field text (field_text f)) (out.old.items ++ field_text first) others.now ++ 10 ∷ []) }
{
    put_field(out, first)?;
    put_others(out, others)?;
    put(out, "\n")
}
